ghost use Rattle.std.specs.Prelude.{◌≡◌, ℕ, ◌+◌, ◌<◌, ◌≤◌, false, true, Option, List, [], ◌∷◌, ◌++◌, length, position, vec_len, vec_capacity, IfOk};
ghost use Rattle.std.specs.List.{find};
ghost use Rattle.std.specs.Option.{option_copied};
ghost use Rattle.tt_pipeline.specs.Starting.{has_key, at_key, without, is_there, start_row, later_row, first_row, row_of_part, started};
ghost use Rattle.tt_pipeline.specs.Work.{fresh, joined};
ghost use Rattle.tt_pipeline.specs.Working.{budget, used_by, kept, IsWorked, Works};
ghost use Rattle.tt_pipeline.specs.Answers.{complete_answer, completed};
ghost use Rattle.hub_keys.specs.Keys.{key_of};

use crate::entry::{Entry, part};
use crate::rows::StartRow;
use hub_keys::Key;
use std::alloc::Global;
use std::marker::Model;
use usb_base::limits::BYTE_TIMES_OF_MICROFRAME;
use usb_base::{Ask, DataPart, Memory, Pid, Reply, Wire};

/// The most entries that a pipeline has.
const ROOM: usize = 256;

/// The periodic pipeline of a translator: its entries in order of arrival.
#[derive(Debug, Drop)]
pub struct Pipeline {
    entries: Vec<Entry>,
}

impl Model for Pipeline {
    ghost use Rattle.std.specs.Prelude.{List, ◌≤◌, vec_len, vec_capacity};
    ghost use Rattle.tt_pipeline.specs.declared.entry.Entry.{Entry as Work};

    ghost Value = { List Work };

    ghost view = { λ p. p.entries.items };

    ghost invariant = { λ p. (vec_len p.entries ≤ 256) × (256 ≤ vec_capacity p.entries) };
}

impl Pipeline {
    /// An empty pipeline, with room for 256 entries. Nothing else takes memory.
    pub fn build(alloc: Global) -> Result<Pipeline, Memory>
        ensures { IfOk result (λ p. p ≡ []) }
    {
        let entries = Vec::with_capacity(alloc, ROOM)?;
        Ok(Pipeline { entries })
    }

    /// Takes an interrupt or isochronous start-split with the bytes that it brings (none for an IN); stuffed bits make
    /// its transaction longer by `stuff` bytes in 36.
    ///
    /// It makes an entry, in the place of one of its key; a part Middle or End of an isochronous OUT joins the entry
    /// of its key. It is forgotten exactly where its key has no entry and 256 are there, and as a later part without
    /// an entry, or one that would bring its entry past 1,024 bytes.
    pub fn start(&mut self, ask: &Ask, bytes: &[u8], stuff: u8)
        requires { length bytes.now ≤ 1024 }
        ensures { self.new ≡ started ask.now bytes.now stuff self.old }
    {
        let key = Key::of(ask);
        match self.start_row(part(ask), &key, bytes.len()) {
            StartRow::Enters => self.enter(&key, ask, bytes, stuff),
            StartRow::Joins => self.join(&key, ask, bytes),
            StartRow::Forgotten => {}
        }
    }

    /// Works for the microframe that ended, at the begin of the one with this frame index (0 to 16,383): the entries
    /// take 188 byte-times in order of arrival, for the starts that came two microframes ago and before, and make
    /// their classic transactions on `port`. At the begin of a frame all entries are dropped after the work. Answers
    /// the byte-times that were used.
    pub fn microframe<W: Wire>(&mut self, frindex: u16, port: &mut W) -> u32
        ensures used { result ≡ used_by budget self.old }
        ensures bound { result ≤ budget }
        ensures work { IsWorked W.transacts frindex self.old port.old port.new self.new }
    {
        let used = self.work(port);
        self.end_frame(frindex);
        used
    }

    /// Answers a complete-split of this key: NYET, ERR, the result of an interrupt, or new bytes of an isochronous IN
    /// (MDATA where more are to come, DATA0 with the last).
    pub fn complete(&mut self, key: &Key) -> Reply
        ensures answer { result ≡ complete_answer key.now self.old }
        ensures after { self.new ≡ completed key.now self.old }
    {
        match self.place(key) {
            Some(i) => self.entries[i].give(),
            None => Reply::Hand(Pid::Nyet),
        }
    }

    /// Empties the pipeline.
    pub fn clear(&mut self)
        ensures { self.new ≡ [] }
    {
        self.entries.clear();
    }

    /// Where the entry of a key stands.
    fn place(&self, key: &Key) -> Option<usize>
        ensures { result ≡ position (has_key key.now) self.now }
    {
        self.entries.iter().position(|e| e.key.is(key))
    }

    /// The entry of a key.
    fn entry(&self, key: &Key) -> Option<&Entry>
        ensures { option_copied result ≡ find (has_key key.now) self.now }
    {
        self.entries.iter().find(|e| e.key.is(key))
    }

    fn has(&self, key: &Key) -> bool
        ensures { result ≡ is_there key.now self.now }
    {
        self.entries.iter().any(|e| e.key.is(key))
    }

    /// The row of a later part.
    fn later_row(&self, key: &Key, bytes: usize) -> StartRow
        requires { bytes ≤ 1024 }
        ensures { result ≡ later_row bytes (find (has_key key.now) self.now) }
    {
        match self.entry(key) {
            Some(e) => {
                if e.came.bytes as usize + bytes <= 1024 {
                    StartRow::Joins
                } else {
                    StartRow::Forgotten
                }
            }
            None => StartRow::Forgotten,
        }
    }

    /// The row of any other start.
    fn first_row(&self, key: &Key) -> StartRow
        ensures { result ≡ first_row key.now self.now }
    {
        if self.has(key) || self.entries.len() < ROOM {
            StartRow::Enters
        } else {
            StartRow::Forgotten
        }
    }

    fn start_row(&self, part: DataPart, key: &Key, bytes: usize) -> StartRow
        requires { bytes ≤ 1024 }
        ensures { result ≡ row_of_part part key.now bytes self.now }
    {
        match part {
            DataPart::All | DataPart::Begin => self.first_row(key),
            DataPart::Middle | DataPart::End => self.later_row(key, bytes),
        }
    }

    /// Takes the entry of a key out.
    fn take_out(&mut self, key: &Key)
        ensures after { self.new ≡ without key.now self.old }
        ensures fewer { is_there key.now self.old ≡ true → length self.new + 1 ≡ length self.old }
        ensures bound { length self.new ≤ length self.old }
        ensures size { length self.old ≤ 256 }
    {
        if let Some(i) = self.place(key) {
            self.entries.remove(i);
        }
    }

    fn enter(&mut self, key: &Key, ask: &Ask, bytes: &[u8], stuff: u8)
        requires room { first_row key.now self.old ≡ StartRow.Enters }
        requires size { length bytes.now ≤ 1024 }
        ensures { self.new ≡ without key.now self.old ++ fresh ask.now bytes.now stuff ∷ [] }
    {
        self.take_out(key);
        self.entries.push_reserved(Entry::new(ask, bytes, stuff));
    }

    fn join(&mut self, key: &Key, ask: &Ask, bytes: &[u8])
        requires room { later_row (length bytes.now) (find (has_key key.now) self.old) ≡ StartRow.Joins }
        ensures { self.new ≡ at_key key.now (joined ask.now bytes.now) self.old }
    {
        if let Some(i) = self.place(key) {
            self.entries[i].join(ask, bytes);
        }
    }

    /// The turns of all entries in a microframe.
    fn work<W: Wire>(&mut self, port: &mut W) -> u32
        ensures used { result ≡ used_by budget self.old }
        ensures bound { result ≤ budget }
        ensures works { Works W.transacts budget self.old port.old port.new self.new }
    {
        let mut room = BYTE_TIMES_OF_MICROFRAME as u32;
        for entry in self.entries.iter_mut() {
            room -= entry.turn(room, port);
        }
        BYTE_TIMES_OF_MICROFRAME as u32 - room
    }

    /// Drops all entries at the begin of a frame.
    fn end_frame(&mut self, frindex: u16)
        ensures { self.new ≡ kept frindex self.old }
    {
        if frindex % 8 == 0 {
            self.entries.clear();
        }
    }
}

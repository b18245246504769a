ghost use Rattle.std.specs.Prelude.{◌≡◌, ℕ, ◌+◌, ◌-◌, ◌*◌, ◌/◌, ◌^◌, ◌<◌, ◌≤◌, List, [], length, take, drop};
ghost use Rattle.usb_base.specs.declared.packets.Reply.{Reply as Answer};
ghost use Rattle.tt_pipeline.specs.Work.{aged, called, called_unstuffed, called_for, unstuffed_done, asked_part, brought_by, nothing_brought, fresh, joined, used, progressed, is_due, sent_of, Asks, answered, Turn};
ghost use Rattle.tt_pipeline.specs.Working.{used_at};
ghost use Rattle.tt_pipeline.specs.Answers.{answer_row, bytes_row, result_of, result_at, answer_at, given_at, answer_of, given, bytes_of};

use crate::out_data::OutData;
use crate::rows::AnswerRow;
use hub_keys::{Key, classic_ask, stuffed, work};
use usb_base::limits::BYTE_TIMES_OF_MICROFRAME;
use usb_base::{Ask, DataPart, EpKind, Packet, Pid, Reply, Split, Wire, reply_to};

/// What start-splits brought to an entry.
#[derive(Clone, Copy, Debug, PartialEq, Eq)]
pub struct Brought {
    /// The parts of an isochronous OUT that were not the last; the number stands at its last value.
    pub parts: u32,
    /// The bytes, at most 1,024.
    pub bytes: u16,
    /// Whether the last part, or a start that comes whole, is among them.
    pub whole: bool,
}

/// The classic transaction of an entry.
#[derive(Debug, Drop)]
pub enum Exchange {
    /// It isn't made yet, and sends these bytes.
    Ahead(OutData),
    /// It was made, and this was heard.
    Made(Reply),
}

/// An entry of the pipeline: a periodic transaction that start-splits of this frame called for.
#[derive(Debug, Drop)]
pub struct Entry {
    /// The endpoint half that it is found by.
    pub key: Key,
    /// The first start's ask.
    pub ask: Ask,
    /// What its starts have brought.
    pub came: Brought,
    /// What they had brought when the present microframe began.
    pub before: Brought,
    /// What they had brought when the microframe before the present one began: what is worked.
    pub heard: Brought,
    /// The byte-times that were worked.
    pub done: u64,
    /// The classic transaction.
    pub exchange: Exchange,
    /// The bytes of an isochronous IN that complete-splits have taken.
    pub delivered: u64,
    /// Whether its last bytes were taken.
    pub ended: bool,
    /// How many bytes in 36 stuffed bits make its packet longer (USB 2.0, 7.1.9).
    pub stuff: u8,
}

/// The part that a start carries: only an isochronous OUT comes in parts.
pub(crate) fn part(ask: &Ask) -> DataPart
    ensures { result ≡ asked_part ask.now }
{
    match (ask.kind, ask.pid, ask.split) {
        (EpKind::Iso, Pid::In, _) => DataPart::All,
        (EpKind::Iso, _, Split::Start { part, .. }) => part,
        _ => DataPart::All,
    }
}

/// The bytes from this number on.
fn from(bytes: &[u8], first: u64) -> &[u8]
    ensures bytes { result.now ≡ drop first bytes.now }
    ensures bound { length result.now ≤ length bytes.now }
{
    &bytes[u64::min(first, bytes.len() as u64) as usize..]
}

/// The bytes from one number up to another, as far as there are so many.
fn window(bytes: &[u8], first: u64, end: u64) -> &[u8]
    ensures bytes { result.now ≡ take (end - first) (drop first bytes.now) }
    ensures bound { length result.now ≤ length bytes.now }
{
    let rest = from(bytes, first);
    let count = u64::min(end.saturating_sub(first), rest.len() as u64);
    &rest[..count as usize]
}

/// Of `done` in `whole` the share that `part` is of it, rounded down.
fn share(done: u64, part: u64, whole: u64) -> u64
    requires part { part ≤ whole }
    requires some { 0 < whole }
    ensures { result ≡ done * part / whole }
{
    (done as u128 * part as u128 / whole as u128) as u64
}

/// The reply that a complete-split gets for what was heard: a silence is told as ERR.
fn result(reply: &Reply) -> Reply
    ensures { result ≡ result_of reply.now }
{
    match reply {
        Reply::Silent => Reply::Hand(Pid::Err),
        Reply::Bytes(pid, bytes) => Reply::Bytes(*pid, Packet::copy_of(bytes.as_slice())),
        Reply::Hand(pid) => Reply::Hand(*pid),
    }
}

impl Brought {
    /// Nothing yet.
    pub(crate) fn nothing() -> Brought
        ensures { result ≡ nothing_brought }
    {
        Brought {
            parts: 0,
            bytes: 0,
            whole: false,
        }
    }

    /// Adds a part with so many bytes.
    pub(crate) fn add(&mut self, part: DataPart, bytes: u16)
        requires { self.old.bytes + bytes < 65536 }
        ensures { self.new ≡ brought_by part bytes self.old }
    {
        self.bytes += bytes;
        match part {
            DataPart::All | DataPart::End => self.whole = true,
            DataPart::Begin | DataPart::Middle => self.parts = self.parts.saturating_add(1),
        }
    }

    /// The byte-times that starts with this ask call for.
    fn called(&self, ask: &Ask) -> u64
        ensures value { result ≡ called ask.now self.now }
        ensures bound { result < 2 ^ 40 }
    {
        if self.whole {
            work(ask, self.bytes) as u64
        } else {
            BYTE_TIMES_OF_MICROFRAME as u64 * self.parts as u64
        }
    }
}

impl Entry {
    /// The entry that a start makes, whose bytes stuffed bits make longer by `stuff` in 36.
    pub(crate) fn new(ask: &Ask, bytes: &[u8], stuff: u8) -> Entry
        requires { length bytes.now ≤ 1024 }
        ensures { result ≡ fresh ask.now bytes.now stuff }
    {
        let mut came = Brought::nothing();
        came.add(part(ask), bytes.len() as u16);
        let mut sent = OutData::empty();
        sent.append(bytes);
        Entry {
            key: Key::of(ask),
            ask: *ask,
            came,
            before: Brought::nothing(),
            heard: Brought::nothing(),
            done: 0,
            exchange: Exchange::Ahead(sent),
            delivered: 0,
            ended: false,
            stuff,
        }
    }

    /// Takes a later part.
    pub(crate) fn join(&mut self, ask: &Ask, bytes: &[u8])
        requires { self.old.came.bytes + length bytes.now ≤ 1024 }
        ensures { self.new ≡ joined ask.now bytes.now self.old }
    {
        self.came.add(part(ask), bytes.len() as u16);
        if let Exchange::Ahead(sent) = &mut self.exchange {
            sent.append(bytes);
        }
    }

    /// The byte-times that its starts call for, those of the last two microframes apart, with the stuffed bits.
    fn called(&self) -> u64
        ensures value { result ≡ called_for self.now }
        ensures least { called_unstuffed self.now ≤ result }
    {
        stuffed(self.heard.called(&self.ask), self.stuff)
    }

    /// What the byte-times that were worked come to without stuffed bits.
    fn unstuffed_done(&self) -> u64
        ensures { result ≡ unstuffed_done self.now }
    {
        let called = self.called();
        if called == 0 {
            return 0;
        }
        share(self.done, self.heard.called(&self.ask), called)
    }

    /// What came becomes older by a microframe.
    fn age(&mut self)
        ensures { self.new ≡ aged self.old }
    {
        self.heard = self.before;
        self.before = self.came;
    }

    /// Takes byte-times of the room, and answers how many.
    fn progress(&mut self, room: u32) -> u32
        ensures count { result ≡ used room self.old }
        ensures bound { result ≤ room }
        ensures after { self.new ≡ progressed room self.old }
    {
        let owed = self.called().saturating_sub(self.done);
        let taken = u64::min(room as u64, owed);
        self.done += taken;
        taken as u32
    }

    /// Whether the classic transaction is made now.
    fn is_due(&self) -> bool
        ensures { result ≡ is_due self.now }
    {
        match (&self.exchange, self.ask.kind, self.ask.pid) {
            (Exchange::Made(_), _, _) => false,
            (Exchange::Ahead(_), EpKind::Iso, Pid::In) => 0 < self.done,
            (Exchange::Ahead(_), EpKind::Iso, _) => self.heard.whole && self.called() <= self.done,
            (Exchange::Ahead(_), _, _) => 0 < self.done,
        }
    }

    /// The bytes that the classic transaction sends.
    fn sent(&self) -> &[u8]
        ensures bytes { result.now ≡ sent_of self.now }
        ensures bound { length result.now ≤ 1024 }
    {
        match &self.exchange {
            Exchange::Ahead(sent) => {
                let bytes = sent.as_slice();
                &bytes[..usize::min(self.heard.bytes as usize, bytes.len())]
            }
            Exchange::Made(_) => &[],
        }
    }

    /// Makes the classic transaction if it is due.
    fn exchange<W: Wire>(&mut self, port: &mut W)
        ensures { (reply : Answer) × Asks W.transacts (is_due self.old) self.old port.old reply port.new × (self.new ≡ answered (is_due self.old) reply self.old) }
    {
        if !self.is_due() {
            return;
        }
        let reply = reply_to(port, &classic_ask(&self.ask), self.sent());
        self.exchange = Exchange::Made(reply);
    }

    /// Its turn in a microframe: it ages, takes byte-times of the room, and makes its transaction if that is due.
    /// Answers the byte-times.
    pub(crate) fn turn<W: Wire>(&mut self, room: u32, port: &mut W) -> u32
        ensures count { result ≡ used_at room self.old }
        ensures bound { result ≤ room }
        ensures turn { Turn W.transacts room self.old port.old port.new self.new }
    {
        self.age();
        let taken = self.progress(room);
        self.exchange(port);
        taken
    }

    /// The row of a complete-split.
    fn answer_row(&self) -> AnswerRow
        ensures { result ≡ answer_row self.now }
    {
        match (&self.exchange, self.ask.kind, self.ask.pid) {
            (Exchange::Ahead(_), _, _) => AnswerRow::NotYet,
            (Exchange::Made(Reply::Bytes(_, bytes)), EpKind::Iso, Pid::In) => {
                self.bytes_row(bytes.as_slice().len() as u64)
            }
            (Exchange::Made(_), EpKind::Iso, Pid::In) => AnswerRow::Unheard,
            (Exchange::Made(_), EpKind::Iso, _) => AnswerRow::NotYet,
            (Exchange::Made(_), _, _) => {
                if self.called() <= self.done {
                    AnswerRow::Result
                } else {
                    AnswerRow::NotYet
                }
            }
        }
    }

    /// The row of an isochronous IN whose device sent so many bytes.
    fn bytes_row(&self, bytes: u64) -> AnswerRow
        requires { bytes ≤ 1024 }
        ensures { result ≡ bytes_row bytes self.now }
    {
        if self.ended {
            return AnswerRow::NotYet;
        }
        let there = self.unstuffed_done();
        if bytes + 9 <= there {
            return AnswerRow::Last;
        }
        if self.delivered < there.saturating_sub(9) {
            return AnswerRow::More;
        }
        AnswerRow::NotYet
    }

    /// The bytes that the device sent.
    fn bytes(&self) -> &[u8]
        ensures bytes { result.now ≡ bytes_of self.now.exchange }
        ensures bound { length result.now ≤ 1024 }
    {
        match &self.exchange {
            Exchange::Made(Reply::Bytes(_, bytes)) => bytes.as_slice(),
            _ => &[],
        }
    }

    /// The answer of a complete-split.
    pub(crate) fn give(&mut self) -> Reply
        ensures answer { result ≡ answer_of self.old }
        ensures after { self.new ≡ given self.old }
    {
        match self.answer_row() {
            AnswerRow::NotYet => Reply::Hand(Pid::Nyet),
            AnswerRow::Result => self.result(),
            AnswerRow::Unheard => Reply::Hand(Pid::Err),
            AnswerRow::More => self.give_more(),
            AnswerRow::Last => self.give_last(),
        }
    }

    fn result(&self) -> Reply
        ensures { result ≡ result_at self.now.exchange }
    {
        match &self.exchange {
            Exchange::Ahead(_) => Reply::Hand(Pid::Nyet),
            Exchange::Made(reply) => result(reply),
        }
    }

    fn give_more(&mut self) -> Reply
        ensures answer { result ≡ answer_at AnswerRow.More self.old }
        ensures after { self.new ≡ given_at AnswerRow.More self.old }
    {
        let there = self.unstuffed_done().saturating_sub(9);
        let new = Packet::copy_of(window(self.bytes(), self.delivered, there));
        self.delivered = there;
        Reply::Bytes(Pid::Mdata, new)
    }

    fn give_last(&mut self) -> Reply
        ensures answer { result ≡ answer_at AnswerRow.Last self.old }
        ensures after { self.new ≡ given_at AnswerRow.Last self.old }
    {
        let new = Packet::copy_of(from(self.bytes(), self.delivered));
        self.ended = true;
        Reply::Bytes(Pid::Data0, new)
    }
}

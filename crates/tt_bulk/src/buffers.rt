ghost use Rattle.std.specs.Prelude.{◌≡◌, ◌≤◌, length};
ghost use Rattle.tt_bulk.specs.Contents.{opening, buffer_content, with_place};
ghost use Rattle.tt_bulk.specs.Rows.{start_answer, started, after_start, complete_answer, completed, given_by, once_given, cleared};
ghost use Rattle.tt_bulk.specs.Work.{Works};

use crate::buffer::Buffer;
use crate::rows::{BufferIndex, CompleteRow, StartRow};
use crate::table::{complete_row, start_row};
use hub_keys::Key;
use std::alloc::Global;
use std::marker::Model;
use usb_base::{Ask, Memory, Pid, Reply, Wire};

/// A translator's two buffers for bulk and control transactions. A contract sees what each has, and which one took its
/// packet last.
#[derive(Debug, Drop)]
pub struct Buffers {
    first: Buffer,
    second: Buffer,
    latest: BufferIndex,
}

impl Model for Buffers {
    ghost use Rattle.tt_bulk.specs.Contents.{TwoBuffers};

    ghost Value = { TwoBuffers };

    ghost view = { λ w. record { first = w.first; second = w.second; latest = w.latest } };
}

impl Buffers {
    /// Two free buffers. They stand in the value itself, so that no memory is wanted.
    pub fn build(_alloc: Global) -> Result<Buffers, Memory>
        ensures { result ≡ Ok opening }
    {
        Ok(Buffers::empty())
    }

    fn empty() -> Buffers
        ensures { result ≡ opening }
    {
        Buffers {
            first: Buffer::free(),
            second: Buffer::free(),
            latest: BufferIndex::Second,
        }
    }

    /// Takes a start-split of bulk or control kind for a full- or low-speed device, which carries at most 1,024 bytes,
    /// whose packet stuffed bits make longer by `stuff` bytes in 36, and answers ACK where the packet is in a buffer
    /// then, else NAK (USB 2.0, 11.17.1). The start of a key whose
    /// buffer is Pending or Ready is a repeat, which changes nothing. Else the packet goes into the key's Old buffer, a
    /// Free one or an Old one of another key, in this order.
    pub fn start(&mut self, ask: &Ask, bytes: &[u8], stuff: u8) -> Reply
        requires { length bytes.now ≤ 1024 }
        ensures answer { result ≡ start_answer ask.now self.old }
        ensures after { self.new ≡ started ask.now bytes.now stuff self.old }
    {
        let key = Key::of(ask);
        match start_row(self.first.stand(&key), self.second.stand(&key)) {
            StartRow::Repeated => Reply::Hand(Pid::Ack),
            StartRow::Takes(place) => {
                self.take(place, ask, bytes, stuff);
                Reply::Hand(Pid::Ack)
            }
            StartRow::Full => Reply::Hand(Pid::Nak),
        }
    }

    fn take(&mut self, place: BufferIndex, ask: &Ask, bytes: &[u8], stuff: u8)
        requires { length bytes.now ≤ 1024 }
        ensures { self.new ≡ after_start (StartRow.Takes place) (record { ask = ask.now; packet = bytes.now; stuff = stuff }) self.old }
    {
        self.latest = place;
        match place {
            BufferIndex::First => self.first.take(ask, bytes, stuff),
            BufferIndex::Second => self.second.take(ask, bytes, stuff),
        }
    }

    /// Lets the buffers work on the bus below for a microframe that has `room` byte-times left for them (USB 2.0,
    /// 11.18): in the order in which their packets were taken, each makes its transaction at most once, and only where
    /// its byte-times fit the room that is left. A heard answer makes its buffer Ready; the third silence makes it Ready
    /// with STALL.
    pub fn work<W: Wire>(&mut self, port: &mut W, room: u32)
        ensures { Works W.transacts room self.old port.old self.new port.new }
    {
        match self.latest {
            BufferIndex::First => {
                let left = self.second.turn(port, room);
                self.first.turn(port, left);
            }
            BufferIndex::Second => {
                let left = self.first.turn(port, room);
                self.second.turn(port, left);
            }
        }
    }

    /// Answers a complete-split: NYET while the key's buffer is Pending, then its result, again at each repeat; nothing
    /// where no buffer has the key (USB 2.0, 11.17.1).
    pub fn complete(&mut self, key: &Key) -> Reply
        ensures answer { result ≡ complete_answer key.now self.old }
        ensures after { self.new ≡ completed key.now self.old }
    {
        match complete_row(self.first.stand(key), self.second.stand(key)) {
            CompleteRow::Waits => Reply::Hand(Pid::Nyet),
            CompleteRow::Gives(place) => self.give(place),
            CompleteRow::Unknown => Reply::Silent,
        }
    }

    fn give(&mut self, place: BufferIndex) -> Reply
        ensures answer { result ≡ given_by (buffer_content place self.old) }
        ensures after { self.new ≡ with_place place (once_given (buffer_content place self.old)) self.old }
    {
        match place {
            BufferIndex::First => self.first.give(),
            BufferIndex::Second => self.second.give(),
        }
    }

    /// Frees the key's buffer; of a control endpoint those of both directions (USB 2.0, 11.24.2.3).
    pub fn clear(&mut self, key: &Key)
        ensures { self.new ≡ cleared key.now self.old }
    {
        self.first.clear(key);
        self.second.clear(key);
    }

    /// Frees both buffers (USB 2.0, 11.24.2.9).
    pub fn clear_all(&mut self)
        ensures { self.new ≡ opening }
    {
        *self = Buffers::empty();
    }
}

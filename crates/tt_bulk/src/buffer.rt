ghost use Rattle.std.specs.Prelude.{◌≡◌, ◌≤◌, length};
ghost use Rattle.tt_bulk.specs.Contents.{Free as FreeContent, Pending as PendingContent};
ghost use Rattle.tt_bulk.specs.Rows.{stand_of, given_by, once_given, is_cleared_by, cleared_buffer};
ghost use Rattle.tt_bulk.specs.Work.{TakesTurn, due as due_of, turn_of, room_after, heard_by, silent_after};

use crate::answers::{Answer, reply, result};
use crate::rows::{Stage, Stand};
use hub_keys::{Key, classic_ask, stuffed, work};
use std::marker::Model;
use usb_base::limits::BYTE_TIMES_OF_MICROFRAME;
use usb_base::{Ask, DevAddr, EpKind, EpNum, Packet, Pid, Reply, Speed, Split, Wire, reply_to};

/// One of a translator's buffers. What it shows depends on its stage: a free buffer shows nothing of its fields.
#[derive(Debug, Drop)]
pub struct Buffer {
    /// The start-split whose packet it took last.
    ask: Ask,
    /// The bytes that the start carried.
    packet: Packet,
    /// How many bytes in 36 stuffed bits make it longer.
    stuff: u8,
    stage: Stage,
    /// How many silences met the transaction so far, 0 to 2.
    silences: u8,
    /// The result of the transaction that was answered last.
    answer: Answer,
}

impl Model for Buffer {
    ghost use Rattle.tt_bulk.specs.Contents.{BufferContent, content_at};

    ghost Value = { BufferContent };

    ghost view = { λ b. content_at b.stage (record { ask = b.ask; packet = b.packet; stuff = b.stuff }) b.silences b.answer };
}

/// An ask of nobody, for a buffer that took no packet yet.
fn no_ask() -> Ask {
    match (DevAddr::new(0), EpNum::new(0)) {
        (Some(addr), Some(ep)) => Ask {
            split: Split::Plain,
            pid: Pid::In,
            addr,
            ep,
            speed: Speed::Full,
            kind: EpKind::Bulk,
            toggle: Pid::Data0,
            limit: 0,
        },
        _ => unreachable!(),
    }
}

/// Whether a clear for `key` clears a buffer of `other`: a control endpoint's buffers of both directions are cleared.
fn clears(key: &Key, other: &Key) -> bool
    ensures { result ≡ is_cleared_by key.now other.now }
{
    match key.kind {
        EpKind::Control => Key {
            dir: other.dir,
            ..*key
        }
        .is(other),
        _ => key.is(other),
    }
}

/// The byte-times of a packet's transaction, with its stuffed bits: no more than a microframe has.
fn due(ask: &Ask, packet: &[u8], stuff: u8) -> u32
    requires { length packet.now ≤ 1024 }
    ensures { result ≡ due_of (record { ask = ask.now; packet = packet.now; stuff = stuff }) }
{
    let times = work(ask, packet.len() as u16) as u64;
    u64::min(BYTE_TIMES_OF_MICROFRAME as u64, stuffed(times, stuff)) as u32
}

impl Buffer {
    /// A free buffer.
    pub fn free() -> Buffer
        ensures { result ≡ FreeContent }
    {
        Buffer {
            ask: no_ask(),
            packet: Packet::empty(),
            stuff: 0,
            stage: Stage::Free,
            silences: 0,
            answer: Answer::Stall,
        }
    }

    /// How it stands to a key.
    pub fn stand(&self, key: &Key) -> Stand
        ensures { result ≡ stand_of key.now self.now }
    {
        match (self.stage, Key::of(&self.ask).is(key)) {
            (Stage::Free, _) => Stand::Free,
            (Stage::Pending, true) => Stand::Pending,
            (Stage::Ready, true) => Stand::Ready,
            (Stage::Old, true) => Stand::Old,
            (Stage::Pending | Stage::Ready, false) => Stand::Busy,
            (Stage::Old, false) => Stand::Spare,
        }
    }

    /// Takes the packet of a start-split, with its number of stuffed bits, in the place of what it had.
    pub fn take(&mut self, ask: &Ask, bytes: &[u8], stuff: u8)
        requires { length bytes.now ≤ 1024 }
        ensures { self.new ≡ PendingContent (record { ask = ask.now; packet = bytes.now; stuff = stuff }) 0 }
    {
        self.ask = *ask;
        self.packet = Packet::copy_of(bytes);
        self.stuff = stuff;
        self.stage = Stage::Pending;
        self.silences = 0;
    }

    /// Gives its result, which is Old from then on; nothing where it has none.
    pub fn give(&mut self) -> Reply
        ensures answer { result ≡ given_by self.old }
        ensures after { self.new ≡ once_given self.old }
    {
        match self.stage {
            Stage::Ready | Stage::Old => {
                self.stage = Stage::Old;
                reply(&self.answer)
            }
            Stage::Free | Stage::Pending => Reply::Silent,
        }
    }

    /// Frees it where a clear for `key` clears it.
    pub fn clear(&mut self, key: &Key)
        ensures { self.new ≡ cleared_buffer key.now self.old }
    {
        if clears(key, &Key::of(&self.ask)) {
            self.stage = Stage::Free;
        }
    }

    /// Its turn in a microframe that has this many byte-times left: one transaction on the bus below, where it has one
    /// that fits. Answers the byte-times that are left then.
    pub fn turn<W: Wire>(&mut self, port: &mut W, room: u32) -> u32
        ensures turn { TakesTurn W.transacts room self.old port.old self.new port.new }
        ensures left { result ≡ room_after room (turn_of room self.old) }
    {
        let Stage::Pending = self.stage else {
            return room;
        };
        let due = due(&self.ask, self.packet.as_slice(), self.stuff);
        if room < due {
            return room;
        }
        let reply = reply_to(port, &classic_ask(&self.ask), self.packet.as_slice());
        self.hear(reply);
        room - due
    }

    /// Hears a reply to its transaction.
    fn hear(&mut self, reply: Reply)
        ensures { self.new ≡ heard_by reply self.old }
    {
        let Stage::Pending = self.stage else {
            return;
        };
        match result(reply) {
            Some(answer) => {
                self.answer = answer;
                self.stage = Stage::Ready;
            }
            None => self.miss(),
        }
    }

    /// Meets a silence: the third one stands for a STALL.
    fn miss(&mut self)
        ensures { self.new ≡ silent_after self.old }
    {
        let Stage::Pending = self.stage else {
            return;
        };
        if 2 <= self.silences {
            self.answer = Answer::Stall;
            self.stage = Stage::Ready;
            return;
        }
        self.silences += 1;
    }
}

ghost use Rattle.std.specs.Prelude.{◌≡◌, ◌≤◌, ℕ, Some, length};
ghost use Rattle.usb_base.specs.declared.packets.Reply.{Reply as Heard};
ghost use Rattle.toggle_error.specs.declared.host.Outcome.{Outcome as Came};
ghost use Rattle.hc_microframe.specs.Numbers.{outcome_named, end_named, split_named, mode_named, part_named, heard_in, queue_in, itd_in, sitd_in};

use crate::desk::{set_hand, set_packet};
use async_walk::{HeldParts, ReloadMode};
use hc_core::MicroframePart;
use hc_iso::{IsoEnd, SplitOutcome};
use periodic_walk::{ItdParts, SitdParts};
use toggle_error::Outcome;
use usb_base::{EndCause, Pid, Reply};

/// What was heard in the last transaction, in numbers.
#[repr(C)]
#[derive(Clone, Copy, Debug, PartialEq, Eq)]
pub struct HeardWords {
    /// 1: a handshake; 2: a data packet; else nothing.
    pub kind: u8,
    /// The four bits of its packet identifier (USB 2.0, 8.3.1).
    pub pid: u8,
    /// How many bytes a data packet has.
    pub len: u16,
    /// These bytes, and others behind them that mean nothing.
    pub bytes: [u8; 1024],
}

/// The copy of a queue head in hand, in numbers.
#[repr(C)]
#[derive(Clone, Copy, Debug, PartialEq, Eq)]
pub struct QueueWords {
    /// Where the queue head stands: a byte address.
    pub at: u32,
    /// The words of the copy.
    pub words: [u32; 12],
    /// What its transaction came to: 1 bytes moved, 2 a repetition, 3 NAK, 4 a wait, 5 an error, 6 a halt by STALL, 7 by errors, 8 by a
    /// babble, 9 by a miss, 10 by a cancel; else it wasn't made.
    pub settled: u8,
    /// How many transactions were made in the visit of an interrupt endpoint.
    pub made: u8,
    /// How many bytes moved, where some did.
    pub moved: u16,
}

/// The copy of an iTD in hand, in numbers.
#[repr(C)]
#[derive(Clone, Copy, Debug, PartialEq, Eq)]
pub struct ItdWords {
    /// Where the iTD stands: a byte address.
    pub at: u32,
    /// The words of the descriptor, as it was read.
    pub words: [u32; 16],
    /// The word of the microframe, with the errors that were recorded.
    pub slot: u32,
    /// The microframe.
    pub number: u8,
    /// How many transactions were made.
    pub made: u8,
    /// How many packets are to come, at most.
    pub rest: u8,
    /// How it ended: 1 whole, 2 with an error; else it goes on.
    pub ended: u8,
    /// How many bytes were moved.
    pub moved: u16,
    /// Nothing: a copy is as long as four-byte words.
    pub spare: u16,
}

/// The copy of a siTD in hand, in numbers.
#[repr(C)]
#[derive(Clone, Copy, Debug, PartialEq, Eq)]
pub struct SitdWords {
    /// Where the siTD stands: a byte address.
    pub at: u32,
    /// The words of the copy.
    pub words: [u32; 7],
    /// What its transaction came to: 1 bytes moved, 2 nothing, 3 an error; else it wasn't made.
    pub settled: u16,
    /// How many bytes moved, where some did.
    pub moved: u16,
}

/// What a transaction of a queue head came to.
fn outcome_of(settled: u8, moved: u16) -> Option<Outcome>
    ensures { result ≡ outcome_named settled moved }
{
    match settled {
        1 => Some(Outcome::Moved(moved)),
        2 => Some(Outcome::Discarded),
        3 => Some(Outcome::Nak),
        4 => Some(Outcome::Wait),
        5 => Some(Outcome::Error),
        6 => Some(Outcome::Halt(EndCause::Stall)),
        7 => Some(Outcome::Halt(EndCause::Error)),
        8 => Some(Outcome::Halt(EndCause::Babble)),
        9 => Some(Outcome::Halt(EndCause::Miss)),
        10 => Some(Outcome::Halt(EndCause::Cancel)),
        _ => None,
    }
}

fn halt_number(cause: EndCause) -> u8
    ensures { (moved : ℕ) → outcome_named result moved ≡ Some (Came.Halt cause) }
{
    match cause {
        EndCause::Stall => 6,
        EndCause::Error => 7,
        EndCause::Babble => 8,
        EndCause::Miss => 9,
        EndCause::Cancel => 10,
    }
}

/// The numbers of what a transaction came to.
fn outcome_numbers(settled: Option<Outcome>) -> (u8, u16)
    ensures { outcome_named result.0 result.1 ≡ settled }
{
    match settled {
        None => (0, 0),
        Some(Outcome::Moved(moved)) => (1, moved),
        Some(Outcome::Discarded) => (2, 0),
        Some(Outcome::Nak) => (3, 0),
        Some(Outcome::Wait) => (4, 0),
        Some(Outcome::Error) => (5, 0),
        Some(Outcome::Halt(cause)) => (halt_number(cause), 0),
    }
}

fn end_of(ended: u8) -> Option<IsoEnd>
    ensures { result ≡ end_named ended }
{
    match ended {
        1 => Some(IsoEnd::Whole),
        2 => Some(IsoEnd::Failed),
        _ => None,
    }
}

fn end_number(ended: Option<IsoEnd>) -> u8
    ensures { end_named result ≡ ended }
{
    match ended {
        None => 0,
        Some(IsoEnd::Whole) => 1,
        Some(IsoEnd::Failed) => 2,
    }
}

fn split_of(settled: u16, moved: u16) -> Option<SplitOutcome>
    ensures { result ≡ split_named settled moved }
{
    match settled {
        1 => Some(SplitOutcome::Moved(moved)),
        2 => Some(SplitOutcome::Nothing),
        3 => Some(SplitOutcome::Failed),
        _ => None,
    }
}

fn split_numbers(settled: Option<SplitOutcome>) -> (u16, u16)
    ensures { split_named result.0 result.1 ≡ settled }
{
    match settled {
        None => (0, 0),
        Some(SplitOutcome::Moved(moved)) => (1, moved),
        Some(SplitOutcome::Nothing) => (2, 0),
        Some(SplitOutcome::Failed) => (3, 0),
    }
}

pub(crate) fn mode_of(mode: u8) -> ReloadMode
    ensures { result ≡ mode_named mode }
{
    match mode {
        1 => ReloadMode::Reload,
        2 => ReloadMode::WaitStart,
        _ => ReloadMode::WaitHead,
    }
}

pub(crate) fn mode_number(mode: ReloadMode) -> u8
    ensures { mode_named result ≡ mode }
{
    match mode {
        ReloadMode::WaitHead => 0,
        ReloadMode::Reload => 1,
        ReloadMode::WaitStart => 2,
    }
}

pub(crate) fn part_of(part: u32) -> MicroframePart
    ensures { result ≡ part_named part }
{
    match part {
        1 => MicroframePart::Periodic,
        2 => MicroframePart::Asynchronous,
        _ => MicroframePart::Over,
    }
}

pub(crate) fn part_number(part: MicroframePart) -> u32
    ensures { part_named result ≡ part }
{
    match part {
        MicroframePart::Over => 0,
        MicroframePart::Periodic => 1,
        MicroframePart::Asynchronous => 2,
    }
}

impl HeardWords {
    /// A transaction that nothing was heard of.
    pub(crate) fn nothing() -> HeardWords
        ensures { heard_in result ≡ Heard.Silent }
    {
        HeardWords {
            kind: 0,
            pid: 0,
            len: 0,
            bytes: [0; 1024],
        }
    }

    pub(crate) fn reply(&self) -> Reply
        ensures { result ≡ heard_in self.now }
    {
        let mut reply = Reply::Silent;
        if self.kind == 1 {
            set_hand(&mut reply, self.pid);
            return reply;
        }
        if self.kind == 2 && self.len <= 1024 {
            set_packet(&mut reply, self.pid, &self.bytes[..self.len as usize]);
            return reply;
        }
        reply
    }

    #[tactic(auto, using(crate::proofs::Wholes::pid_named_again))]
    fn set_packet(&mut self, pid: Pid, packet: &[u8])
        requires { length packet.now ≤ 1024 }
        ensures { heard_in self.new ≡ Heard.Bytes pid packet.now }
    {
        self.kind = 2;
        self.pid = pid.bits();
        self.len = packet.len() as u16;
        self.bytes[..packet.len()].copy_from_slice(packet);
    }

    /// What was heard, in its place.
    #[tactic(auto, using(crate::proofs::Wholes::pid_named_again))]
    pub(crate) fn set(&mut self, reply: &Reply)
        ensures { heard_in self.new ≡ reply.now }
    {
        match reply {
            Reply::Silent => self.kind = 0,
            Reply::Hand(pid) => {
                self.kind = 1;
                self.pid = pid.bits();
            }
            Reply::Bytes(pid, packet) => self.set_packet(*pid, packet.as_slice()),
        }
    }
}

impl QueueWords {
    /// No copy.
    pub(crate) fn none() -> QueueWords {
        QueueWords {
            at: 0,
            words: [0; 12],
            settled: 0,
            made: 0,
            moved: 0,
        }
    }

    pub(crate) fn parts(&self) -> HeldParts
        ensures { result ≡ queue_in self.now }
    {
        HeldParts {
            at: self.at,
            words: self.words,
            settled: outcome_of(self.settled, self.moved),
        }
    }

    pub(crate) fn of(parts: &HeldParts, made: u8) -> QueueWords
        ensures copy { queue_in result ≡ parts.now }
        ensures made { result.made ≡ made }
    {
        let (settled, moved) = outcome_numbers(parts.settled);
        QueueWords {
            at: parts.at,
            words: parts.words,
            settled,
            made,
            moved,
        }
    }
}

impl ItdWords {
    /// No copy.
    pub(crate) fn none() -> ItdWords {
        ItdWords {
            at: 0,
            words: [0; 16],
            slot: 0,
            number: 0,
            made: 0,
            rest: 0,
            ended: 0,
            moved: 0,
            spare: 0,
        }
    }

    pub(crate) fn parts(&self) -> ItdParts
        ensures { result ≡ itd_in self.now }
    {
        ItdParts {
            at: self.at,
            words: self.words,
            number: self.number,
            slot: self.slot,
            made: self.made,
            rest: self.rest,
            moved: self.moved,
            ended: end_of(self.ended),
        }
    }

    pub(crate) fn of(parts: &ItdParts) -> ItdWords
        ensures { itd_in result ≡ parts.now }
    {
        ItdWords {
            at: parts.at,
            words: parts.words,
            slot: parts.slot,
            number: parts.number,
            made: parts.made,
            rest: parts.rest,
            ended: end_number(parts.ended),
            moved: parts.moved,
            spare: 0,
        }
    }
}

impl SitdWords {
    /// No copy.
    pub(crate) fn none() -> SitdWords {
        SitdWords {
            at: 0,
            words: [0; 7],
            settled: 0,
            moved: 0,
        }
    }

    pub(crate) fn parts(&self) -> SitdParts
        ensures { result ≡ sitd_in self.now }
    {
        SitdParts {
            at: self.at,
            words: self.words,
            settled: split_of(self.settled, self.moved),
        }
    }

    pub(crate) fn of(parts: &SitdParts) -> SitdWords
        ensures { sitd_in result ≡ parts.now }
    {
        let (settled, moved) = split_numbers(parts.settled);
        SitdWords {
            at: parts.at,
            words: parts.words,
            settled,
            moved,
        }
    }
}

ghost use Rattle.std.specs.Prelude.{◌≡◌, ◌+◌, ◌-◌, ◌≤◌, [], length, drop, slice_get, option_copied, IfOk, vec_capacity};
ghost use Rattle.bulk_only.specs.Replies.{all_sent, bytes_in, with_packet, without_first};

use crate::front::drop_front;
use std::alloc::{AllocError, Global};
use std::collections::VecDeque;
use std::marker::Model;

/// The bytes of the shortest packet, a status block.
const SHORTEST: usize = 13;

/// Packets of 13 bytes or more that wait to be sent, one behind the other in a room that is taken once.
#[derive(Debug, Drop)]
pub(crate) struct Replies {
    /// The bytes of the packets, behind those of packets that were sent.
    bytes: Vec<u8>,
    /// How many bytes of `bytes` were sent.
    sent: usize,
    /// The lengths of the packets that wait.
    lengths: VecDeque<usize>,
    /// How many bytes they may have together.
    room: usize,
}

impl Model for Replies {
    ghost use Rattle.std.specs.Prelude.{◌≡◌, ◌≤◌, ◌<◌, ◌+◌, ◌*◌, true, length, drop, vec_capacity};
    ghost use Rattle.std.specs.VecDeque.{deque_capacity};
    ghost use Rattle.bulk_only.specs.Replies.{Waiting, are_long, cut_into, total};

    ghost Value = { Waiting };

    ghost view = { λ r. record { packets = cut_into r.lengths.items (drop r.sent r.bytes.items); room = r.room } };

    ghost invariant = { λ r. (r.sent + total r.lengths.items ≡ length r.bytes.items) × (are_long r.lengths.items ≡ true)
        × (length r.bytes.items ≤ r.room) × (r.room ≤ vec_capacity r.bytes) × (r.room < 13 * deque_capacity r.lengths) };
}

/// Moves the bytes that weren't sent to the front where there is no room for so many more behind them; answers how many bytes were
/// sent of those that are there then.
fn make_room(bytes: &mut Vec<u8>, sent: usize, room: usize, more: usize) -> usize
    requires sent { sent ≤ length bytes.old.items }
    requires room { length bytes.old.items ≤ room }
    requires fits { length bytes.old.items + more ≤ room + sent }
    ensures left { drop result bytes.new.items ≡ drop sent bytes.old.items }
    ensures len { length bytes.new.items + sent ≡ length bytes.old.items + result }
    ensures sent { result ≤ length bytes.new.items }
    ensures fits { length bytes.new.items + more ≤ room }
    ensures capacity { vec_capacity bytes.new ≡ vec_capacity bytes.old }
{
    if room - bytes.len() < more {
        drop_front(bytes, sent);
        0
    } else {
        sent
    }
}

impl Replies {
    /// No packets, with room for this many bytes.
    #[tactic(auto, using(crate::proofs::Packets::no_cut))]
    pub(crate) fn build(alloc: Global, room: u32) -> Result<Replies, AllocError>
        ensures { IfOk result (λ r. r ≡ record { packets = []; room = room }) }
    {
        let room = room as usize;
        let bytes = Vec::with_capacity(alloc, room)?;
        let lengths = VecDeque::with_capacity(alloc, room / SHORTEST + 1)?;
        Ok(Replies {
            bytes,
            sent: 0,
            lengths,
            room,
        })
    }

    /// How many bytes more they may have.
    pub(crate) fn left(&self) -> usize
        ensures { bytes_in self.now.packets + result ≡ self.now.room }
    {
        self.room - (self.bytes.len() - self.sent)
    }

    /// The packet that is sent next; `None` exactly where none waits.
    pub(crate) fn first(&self) -> Option<&[u8]>
        ensures { option_copied result ≡ slice_get self.now.packets 0 }
    {
        match self.lengths.front() {
            Some(length) => Some(&self.bytes[self.sent..self.sent + *length]),
            None => None,
        }
    }

    /// The first packet waits no longer; nothing where there is none.
    pub(crate) fn pop(&mut self)
        ensures { self.new ≡ without_first self.old }
    {
        match self.lengths.pop_front() {
            Some(length) => self.sent += length,
            None => {}
        }
    }

    /// No packet waits any longer.
    #[tactic(auto, using(crate::proofs::Packets::no_cut))]
    pub(crate) fn clear(&mut self)
        ensures { self.new ≡ all_sent self.old }
    {
        self.bytes.clear();
        self.lengths.clear();
        self.sent = 0;
    }

    /// A packet waits behind the others.
    pub(crate) fn push(&mut self, packet: &[u8])
        requires shortest { 13 ≤ length packet.now }
        requires room { bytes_in self.old.packets + length packet.now ≤ self.old.room }
        ensures { self.new ≡ with_packet packet.now self.old }
    {
        self.sent = make_room(&mut self.bytes, self.sent, self.room, packet.len());
        let _fits = self.bytes.extend_from_slice(packet);
        self.lengths.push_back_reserved(packet.len());
    }
}

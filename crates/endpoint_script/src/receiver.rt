ghost use Rattle.std.specs.Prelude.{◌≡◌, ◌+◌, ◌≤◌, nat_le, length, IfOk, IsTrue};
ghost use Rattle.std.specs.List.{list_all};
ghost use Rattle.endpoint_script.specs.Items.{is_short, rest_of, nak_given};
ghost use Rattle.endpoint_script.specs.Taking.{taking_at, next_row, out_row, ping_row, has_room, is_ping, taking_row, last_hand, took, after_taking_row, HasRoomIfTaken, taking_reply, taking_answered};
ghost use Rattle.endpoint_script.specs.Resets.{taking_reset};

use crate::item_list::ItemList;
use crate::rows::TakeRow;
use dev_control::{Sequence, sequence};
use script_types::Item;
use std::alloc::{AllocError, Global};
use std::marker::Model;
use usb_base::{Ask, Pid, Reply, Speed};

fn is_ping(pid: Pid) -> bool
    ensures { result ≡ is_ping pid }
{
    match pid {
        Pid::Ping => true,
        _ => false,
    }
}

/// A bulk or interrupt OUT endpoint, which contracts see as a `Taking`.
#[derive(Drop)]
pub struct Receiver {
    items: ItemList,
    toggle: bool,
    taken: Vec<u8>,
    room: u32,
}

impl Model for Receiver {
    ghost use Rattle.std.specs.Prelude.{◌≤◌, length, vec_capacity};
    ghost use Rattle.endpoint_script.specs.Taking.{Taking};

    ghost Value = { Taking };

    ghost view = { λ r. record { items = r.items; toggle = r.toggle; taken = r.taken.items; room = r.room } };

    ghost invariant = { λ r. (length r.taken.items ≤ r.room) × (r.room ≤ vec_capacity r.taken) };
}

impl Receiver {
    /// The endpoint before its first OUT, with room for this many bytes in all.
    pub fn open(alloc: Global, items: &[Item], room: u32) -> Result<Receiver, AllocError>
        requires { IsTrue (list_all is_short items.now) }
        ensures { IfOk result (λ r. r ≡ taking_at items.now room) }
    {
        Ok(Receiver {
            items: ItemList::copy_of(alloc, items)?,
            toggle: false,
            taken: Vec::with_capacity(alloc, room as usize)?,
            room,
        })
    }

    /// The bytes that it took, in order.
    pub fn taken(&self) -> &[u8]
        ensures { result.now ≡ self.now.taken }
    {
        self.taken.as_slice()
    }

    /// Answers an OUT that sends `out`, at most 1,024 bytes, or a PING, as an endpoint of a device of this speed.
    pub fn answer(&mut self, speed: Speed, ask: &Ask, out: &[u8]) -> Reply
        requires { length out.now ≤ 1024 }
        ensures reply { result ≡ taking_reply speed self.old ask.now out.now }
        ensures after { self.new ≡ taking_answered self.old ask.now out.now }
    {
        match self.row(ask, out) {
            TakeRow::Drops | TakeRow::HasRoom => Reply::Hand(Pid::Ack),
            TakeRow::Naks => self.refuse(),
            TakeRow::IsFull => Reply::Hand(Pid::Nak),
            TakeRow::Stalls => Reply::Hand(Pid::Stall),
            TakeRow::Takes => self.take(out),
            TakeRow::TakesLast => self.take_last(speed, out),
        }
    }

    /// The endpoint is reset; what it took stays.
    pub fn reset(&mut self)
        ensures { self.new ≡ taking_reset self.old }
    {
        self.items.begin_epoch();
        self.toggle = false;
    }

    fn row(&self, ask: &Ask, out: &[u8]) -> TakeRow
        requires { length out.now ≤ 1024 }
        ensures row { result ≡ taking_row self.now ask.now out.now }
        ensures room { HasRoomIfTaken result (has_room self.now (length out.now)) }
    {
        if is_ping(ask.pid) {
            return self.ping_row(out.len());
        }
        self.out_row(sequence(self.toggle, ask.toggle), out.len())
    }

    fn ping_row(&self, n: usize) -> TakeRow
        ensures row { result ≡ ping_row self.now.items }
        ensures room { HasRoomIfTaken result (has_room self.now n) }
    {
        match self.items.first() {
            Some(Item::Nak(_)) => TakeRow::Naks,
            Some(Item::Stall) => TakeRow::Stalls,
            _ => TakeRow::HasRoom,
        }
    }

    fn out_row(&self, sequence: Sequence, n: usize) -> TakeRow
        requires { n ≤ 1024 }
        ensures row { result ≡ out_row sequence self.now.items (has_room self.now n) }
        ensures room { HasRoomIfTaken result (has_room self.now n) }
    {
        match sequence {
            Sequence::Next => self.next_row(self.has_room(n)),
            Sequence::Repeat => TakeRow::Drops,
            Sequence::Neither => TakeRow::Drops,
        }
    }

    fn next_row(&self, fits: bool) -> TakeRow
        ensures row { result ≡ next_row self.now.items fits }
        ensures room { HasRoomIfTaken result fits }
    {
        match (self.items.first(), fits) {
            (Some(Item::Nak(_)), _) => TakeRow::Naks,
            (Some(Item::Stall), _) => TakeRow::Stalls,
            (Some(Item::Nyet), true) => TakeRow::TakesLast,
            (_, true) => TakeRow::Takes,
            (_, false) => TakeRow::IsFull,
        }
    }

    fn has_room(&self, n: usize) -> bool
        requires { n ≤ 1024 }
        ensures { result ≡ has_room self.now n }
    {
        self.taken.len() + n <= self.room as usize
    }

    fn refuse(&mut self) -> Reply
        ensures reply { result ≡ Reply.Hand Pid.Nak }
        ensures after { self.new ≡ record self.old { items = nak_given self.old.items } }
    {
        self.items.give_nak();
        Reply::Hand(Pid::Nak)
    }

    fn take(&mut self, out: &[u8]) -> Reply
        requires { IsTrue (has_room self.old (length out.now)) }
        ensures reply { result ≡ Reply.Hand Pid.Ack }
        ensures after { self.new ≡ took out.now self.old }
    {
        self.taken.extend_from_slice(out).unwrap();
        self.toggle = !self.toggle;
        Reply::Hand(Pid::Ack)
    }

    fn take_last(&mut self, speed: Speed, out: &[u8]) -> Reply
        requires { IsTrue (has_room self.old (length out.now)) }
        ensures reply { result ≡ last_hand speed }
        ensures after { self.new ≡ after_taking_row TakeRow.TakesLast out.now self.old }
    {
        self.take(out);
        self.items.advance();
        match speed {
            Speed::High => Reply::Hand(Pid::Nyet),
            _ => Reply::Hand(Pid::Ack),
        }
    }
}

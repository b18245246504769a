ghost use Rattle.std.specs.Prelude.{◌≡◌, ◌<◌, ◌≤◌, ◌%◌, length, None};
ghost use Rattle.itd_sitd.specs.Itd.{IsItdInRange};
ghost use Rattle.hc_iso.specs.Itd.{packets_for, packets_of, fetched_itd, IsItdHeld, limit_of, last_pid, out_pid, itd_ask, itd_in, itd_out, itd_transaction, number_of, is_in_order, heard_numbered, heard_in, with_packet, with_slot, after_in, after_out, itd_after};

use crate::held::{Heard, HeldItd, IsoEnd, IsoTransaction};
use itd_sitd::{Itd, ItdSlot};
use usb_base::{Ask, DevAddr, Dir, EpKind, EpNum, Pid, Reply, Speed, Split, cost};

/// How many packets hold `bytes` bytes, at up to `size` each.
fn packets(bytes: u16, size: u16) -> u32
    ensures { result ≡ packets_for bytes size }
{
    if size == 0 {
        return 0;
    }
    (bytes as u32 + size as u32 - 1) / size as u32
}

/// How many packets a microframe of a descriptor moves.
fn most_packets(itd: &Itd, slot: &ItdSlot) -> u8
    ensures { result ≡ packets_of itd.now slot.now }
{
    if itd.dir_in {
        return itd.multi;
    }
    u32::max(1, u32::min(itd.multi as u32, packets(slot.length, itd.max))) as u8
}

/// The data PID of an OUT's last packet, by how many came before.
fn last_of(made: u8) -> Pid
    ensures { result ≡ last_pid made }
{
    match made {
        0 => Pid::Data0,
        1 => Pid::Data1,
        _ => Pid::Data2,
    }
}

/// How many packets come after one with this data PID (USB 2.0, 5.9.2).
fn number(pid: Pid) -> Option<u8>
    ensures { result ≡ number_of pid }
{
    match pid {
        Pid::Data0 => Some(0),
        Pid::Data1 => Some(1),
        Pid::Data2 => Some(2),
        _ => None,
    }
}

/// The endpoint of a descriptor (3.3.3).
#[tactic(auto, using(crate::proofs::Ranges::addr_small, crate::proofs::Ranges::ep_small))]
fn endpoint(itd: &Itd) -> (DevAddr, EpNum)
    requires { IsItdInRange itd.now }
    ensures { result ≡ (itd.now.addr, itd.now.ep) }
{
    (DevAddr::new(itd.addr).unwrap(), EpNum::new(itd.ep).unwrap())
}

impl HeldItd {
    /// The copy of the iTD at `at` in the microframe `number`.
    #[tactic(auto, using(crate::proofs::Ranges::fetched_held), unfolding(crate::specs::Itd::fetched_itd))]
    pub fn fetched(at: u32, number: u8, itd: &Itd) -> HeldItd
        requires aligned { at % 32 ≡ 0 }
        requires number { number < 8 }
        requires range { IsItdInRange itd.now }
        ensures copy { result ≡ fetched_itd at number itd.now }
        ensures held { IsItdHeld result }
    {
        let slot = itd.slots[number as usize];
        HeldItd {
            at,
            itd: *itd,
            number,
            slot,
            made: 0,
            rest: most_packets(itd, &slot),
            moved: 0,
            ended: None,
        }
    }

    /// The most bytes that its next transaction moves.
    fn limit(&self) -> u16
        requires { self.now.moved ≤ self.now.slot.length }
        ensures { result ≡ limit_of self.now }
    {
        u16::min(self.itd.max, self.slot.length - self.moved)
    }

    fn ask(&self, pid: Pid, toggle: Pid) -> Ask
        requires range { IsItdInRange self.now.itd }
        requires within { self.now.moved ≤ self.now.slot.length }
        ensures { result ≡ itd_ask self.now pid toggle }
    {
        let (addr, ep) = endpoint(&self.itd);
        Ask {
            split: Split::Plain,
            pid,
            addr,
            ep,
            speed: Speed::High,
            kind: EpKind::Iso,
            toggle,
            limit: self.limit(),
        }
    }

    /// The data PID of an OUT's next packet.
    fn out_toggle(&self) -> Pid
        ensures { result ≡ out_pid self.now.made self.now.rest }
    {
        if self.rest > 1 {
            return Pid::Mdata;
        }
        last_of(self.made)
    }

    #[tactic(auto, using(crate::proofs::Ranges::max_small))]
    fn next_in(&self) -> IsoTransaction
        requires range { IsItdInRange self.now.itd }
        requires within { self.now.moved ≤ self.now.slot.length }
        ensures { result ≡ itd_in self.now }
    {
        IsoTransaction {
            ask: self.ask(Pid::In, Pid::Data0),
            bytes: 0,
            price: cost(Speed::High, EpKind::Iso, Dir::In, self.itd.max),
        }
    }

    #[tactic(auto, using(crate::proofs::Ranges::max_small))]
    fn next_out(&self) -> IsoTransaction
        requires range { IsItdInRange self.now.itd }
        requires within { self.now.moved ≤ self.now.slot.length }
        ensures { result ≡ itd_out self.now }
    {
        let bytes = self.limit();
        IsoTransaction {
            ask: self.ask(Pid::Out, self.out_toggle()),
            bytes,
            price: cost(Speed::High, EpKind::Iso, Dir::Out, bytes),
        }
    }

    /// Its next transaction.
    #[tactic(auto, using(crate::proofs::Ranges::max_small))]
    pub fn next(&self) -> IsoTransaction
        requires { IsItdHeld self.now }
        ensures value { result ≡ itd_transaction self.now }
        ensures size { result.bytes ≤ 1024 }
    {
        if self.itd.dir_in {
            return self.next_in();
        }
        self.next_out()
    }

    /// Whether a packet with this place in the count comes in order.
    fn in_order(&self, number: u8) -> bool
        ensures { result ≡ is_in_order self.now number }
    {
        if self.made == 0 {
            return number < self.rest;
        }
        number as u16 + 1 == self.rest as u16
    }

    fn heard_data(&self, bytes: u16, number: Option<u8>) -> Heard
        requires { self.now.moved ≤ self.now.slot.length }
        ensures { result ≡ heard_numbered self.now bytes number }
    {
        let Some(number) = number else {
            return Heard::Wrong;
        };
        if !self.in_order(number) {
            return Heard::Wrong;
        }
        if bytes > self.limit() {
            return Heard::TooLong;
        }
        Heard::Packet(number, bytes)
    }

    /// What an IN heard.
    pub fn heard(&self, reply: &Reply) -> Heard
        requires { self.now.moved ≤ self.now.slot.length }
        ensures { result ≡ heard_in self.now reply.now }
    {
        match reply {
            Reply::Bytes(pid, packet) => self.heard_data(
                packet.as_slice().len() as u16,
                number(*pid),
            ),
            _ => Heard::Wrong,
        }
    }

    /// The copy after a packet of `bytes` bytes, after which `rest` come.
    fn packet(&self, rest: u8, bytes: u16) -> HeldItd
        requires made { self.now.made ≤ 3 }
        requires moved { self.now.moved ≤ 4095 }
        requires bytes { bytes ≤ 1024 }
        ensures { result ≡ with_packet self.now rest bytes }
    {
        HeldItd {
            made: self.made + 1,
            rest,
            moved: self.moved + bytes,
            ended: if rest == 0 { Some(IsoEnd::Whole) } else { None },
            ..*self
        }
    }

    /// The copy after an error.
    fn error(&self, slot: ItdSlot) -> HeldItd
        requires made { self.now.made ≤ 3 }
        ensures { result ≡ with_slot self.now slot }
    {
        HeldItd {
            made: self.made + 1,
            rest: self.rest.saturating_sub(1),
            slot,
            ended: Some(IsoEnd::Failed),
            ..*self
        }
    }

    #[tactic(auto, using(crate::proofs::Ranges::in_held), unfolding(crate::specs::Itd::after_in))]
    fn settled_in(&self, reply: &Reply) -> HeldItd
        requires held { IsItdHeld self.now }
        requires going { self.now.ended ≡ None }
        ensures copy { result ≡ after_in self.now reply.now }
        ensures held { IsItdHeld result }
    {
        match self.heard(reply) {
            Heard::Packet(rest, bytes) => self.packet(rest, bytes),
            Heard::TooLong => self.error(ItdSlot {
                babble: true,
                ..self.slot
            }),
            Heard::Wrong => self.error(ItdSlot {
                xact_err: true,
                ..self.slot
            }),
        }
    }

    #[tactic(auto, using(crate::proofs::Ranges::out_held), unfolding(crate::specs::Itd::after_out))]
    fn settled_out(&self) -> HeldItd
        requires held { IsItdHeld self.now }
        requires going { self.now.ended ≡ None }
        ensures copy { result ≡ after_out self.now }
        ensures held { IsItdHeld result }
    {
        self.packet(self.rest.saturating_sub(1), self.limit())
    }

    /// Puts what a transaction came to into the copy (EHCI 1.0, 4.7.1).
    pub fn settle(&mut self, reply: &Reply)
        requires held { IsItdHeld self.old }
        requires going { self.old.ended ≡ None }
        ensures copy { self.new ≡ itd_after reply.now self.old }
        ensures held { IsItdHeld self.new }
    {
        if self.itd.dir_in {
            *self = self.settled_in(reply);
        } else {
            *self = self.settled_out();
        }
    }
}

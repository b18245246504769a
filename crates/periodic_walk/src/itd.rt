ghost use Rattle.std.specs.Prelude.{◌≡◌, ◌≤◌, None, length};
ghost use Rattle.word_mem.specs.Access.{IsByController};
ghost use Rattle.hc_iso.specs.Itd.{IsItdHeld, itd_transaction};
ghost use Rattle.periodic_walk.specs.Place.{place, HasEffect};
ghost use Rattle.periodic_walk.specs.Itd.{open_row, itd_row, wrote, wrote_step, itd_step, with_heard, got_after, itd_sent, itd_effect};

use crate::state::{Hand, PeriodicState};
use arrayvec::ArrayVec;
use async_walk::WalkStep;
use hc_iso::{Heard, HeldItd, IsoEnd, IsoTransaction, bytes, load_itd, raise_itd, write_itd};
use hc_memory::HcMemory;
use op_registers::Registers;
use usb_base::{Ps, Reply, Wire};

/// The kind of an event at an iTD in hand.
#[derive(Clone, Copy, Debug, PartialEq, Eq)]
pub enum ItdRow {
    /// The microframe isn't active, or there is no time for its transaction.
    Skip,
    /// Its next transaction.
    Transact(IsoTransaction),
    /// The microframe is written back.
    WriteBack(IsoEnd),
}

/// Keeps the bytes of a packet that came in order.
fn keep(got: &mut ArrayVec<u8, 3072>, heard: Heard, reply: &Reply)
    requires { length got.old.items ≤ 2048 }
    ensures { got.new.items ≡ with_heard heard reply.now got.old.items }
{
    match heard {
        Heard::Packet(..) => {
            let _fits = got.try_extend_from_slice(bytes(reply));
        }
        Heard::TooLong | Heard::Wrong => {}
    }
}

/// Keeps what an IN heard.
fn keep_heard(got: &mut ArrayVec<u8, 3072>, held: &HeldItd, reply: &Reply)
    requires room { length got.old.items ≤ 2048 }
    requires within { held.now.moved ≤ held.now.slot.length }
    ensures { got.new.items ≡ got_after held.now reply.now got.old.items }
{
    if held.itd.dir_in {
        keep(got, held.heard(reply), reply);
    }
}

impl PeriodicState {
    /// The transaction, or the fault where a byte that it sends can't be read.
    #[tactic(auto, using(crate::proofs::Got::got_bounded, crate::proofs::Got::room_for_packet))]
    fn transact_itd<W: Wire, M: HcMemory>(
        &mut self,
        held: HeldItd,
        t: &IsoTransaction,
        regs: &mut Registers,
        mem: &mut M,
        wire: &mut W,
    ) -> WalkStep
        requires held { IsItdHeld held }
        requires going { held.ended ≡ None }
        requires got { length self.old.got ≤ held.moved }
        requires next { t.now ≡ itd_transaction held }
        requires size { t.now.bytes ≤ 1024 }
        ensures step { result ≡ itd_step (ItdRow.Transact t.now) held (place self.old regs.old (M.mem mem.old)) }
        ensures row { HasEffect W.transacts (itd_sent t.now held (place self.old regs.old (M.mem mem.old))) wire.old
            (place self.new regs.new (M.mem mem.new)) wire.new }
        ensures only_lent { IsByController (M.mem mem.old) (M.mem mem.new) }
    {
        let mut held = held;
        let room = &mut self.out[..];
        let out = &mut room[..t.bytes as usize];
        if !load_itd(mem, t, &held, out) {
            self.fault(regs);
            return WalkStep::Fault;
        }
        wire.transact(&t.ask, out, &mut self.reply);
        keep_heard(&mut self.got, &held, &self.reply);
        held.settle(&self.reply);
        self.hand = Some(Hand::Itd(held));
        self.left = Ps(self.left.0.saturating_sub(t.price.0));
        WalkStep::Transact
    }

    fn write_itd<M: HcMemory>(
        &mut self,
        held: &HeldItd,
        ended: IsoEnd,
        regs: &mut Registers,
        mem: &mut M,
    ) -> WalkStep
        requires held { IsItdHeld held.now }
        requires got { length self.old.got ≤ held.now.moved }
        ensures step { result ≡ wrote_step held.now (place self.old regs.old (M.mem mem.old)) }
        ensures place { place self.new regs.new (M.mem mem.new) ≡ wrote held.now ended (place self.old regs.old (M.mem mem.old)) }
        ensures only_lent { IsByController (M.mem mem.old) (M.mem mem.new) }
    {
        if !write_itd(mem, held, self.got.as_slice()) {
            self.fault(regs);
            return WalkStep::Fault;
        }
        raise_itd(regs, held, ended);
        self.pass(held.itd.link);
        WalkStep::WriteBack
    }

    /// The event of an iTD of which a transaction may come.
    fn open_itd<W: Wire, M: HcMemory>(
        &mut self,
        held: HeldItd,
        regs: &mut Registers,
        mem: &mut M,
        wire: &mut W,
    ) -> WalkStep
        requires held { IsItdHeld held }
        requires going { held.ended ≡ None }
        requires got { length self.old.got ≤ held.moved }
        ensures step { result ≡ itd_step (open_row self.old.left held) held (place self.old regs.old (M.mem mem.old)) }
        ensures row { HasEffect W.transacts (itd_effect (open_row self.old.left held) held (place self.old regs.old (M.mem mem.old)))
            wire.old (place self.new regs.new (M.mem mem.new)) wire.new }
        ensures only_lent { IsByController (M.mem mem.old) (M.mem mem.new) }
    {
        if !held.slot.active {
            self.pass(held.itd.link);
            return WalkStep::Skip;
        }
        let t = held.next();
        if t.price > self.left {
            self.pass(held.itd.link);
            return WalkStep::Skip;
        }
        self.transact_itd(held, &t, regs, mem, wire)
    }

    /// The event of a walk with an iTD in hand.
    pub(crate) fn visit_itd<W: Wire, M: HcMemory>(
        &mut self,
        held: HeldItd,
        regs: &mut Registers,
        mem: &mut M,
        wire: &mut W,
    ) -> WalkStep
        requires held { IsItdHeld held }
        requires got { length self.old.got ≤ held.moved }
        ensures step { result ≡ itd_step (itd_row self.old.left held) held (place self.old regs.old (M.mem mem.old)) }
        ensures row { HasEffect W.transacts (itd_effect (itd_row self.old.left held) held (place self.old regs.old (M.mem mem.old)))
            wire.old (place self.new regs.new (M.mem mem.new)) wire.new }
        ensures only_lent { IsByController (M.mem mem.old) (M.mem mem.new) }
    {
        match held.ended {
            None => self.open_itd(held, regs, mem, wire),
            Some(ended) => self.write_itd(&held, ended, regs, mem),
        }
    }
}

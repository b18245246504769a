ghost use Rattle.std.specs.Prelude.{◌≡◌, ◌≤◌};
ghost use Rattle.word_mem.specs.Access.{IsByController};
ghost use Rattle.hc_interrupt.specs.Turns.{microframe_of};
ghost use Rattle.hc_iso.specs.Sitd.{IsSitdHeld, sitd_turn, sitd_transaction, missed_copy};
ghost use Rattle.periodic_walk.specs.Place.{place, HasEffect};
ghost use Rattle.periodic_walk.specs.Sitd.{turn_row, timed_row, sitd_row, wrote, wrote_step, sitd_step, sitd_sent, sitd_effect, work_effect, turn_effect};

use crate::state::{Hand, PeriodicState};
use async_walk::WalkStep;
use hc_interrupt::microframe;
use hc_iso::{
    HeldSitd, IsoTransaction, SitdTurn, SplitOutcome, load_sitd, raise_sitd, turn, write_sitd,
};
use hc_memory::HcMemory;
use op_registers::Registers;
use usb_base::{Ps, Wire};

/// The kind of an event at a siTD in hand.
#[derive(Clone, Copy, Debug, PartialEq, Eq)]
pub enum SitdRow {
    /// There is nothing to do, or no time for it.
    Skip,
    /// Its transaction.
    Transact(IsoTransaction),
    /// A microframe of its split transaction was missed, which is written back.
    Miss,
    /// What its transaction came to is written back.
    WriteBack(SplitOutcome),
}

impl PeriodicState {
    /// The transaction, or the fault where a byte that it sends can't be read.
    fn transact_sitd<W: Wire, M: HcMemory>(
        &mut self,
        held: HeldSitd,
        t: &IsoTransaction,
        regs: &mut Registers,
        mem: &mut M,
        wire: &mut W,
    ) -> WalkStep
        requires held { IsSitdHeld held }
        requires size { t.now.bytes ≤ 1024 }
        ensures step { result ≡ sitd_step (SitdRow.Transact t.now) held (place self.old regs.old (M.mem mem.old)) }
        ensures row { HasEffect W.transacts (sitd_sent t.now held (place self.old regs.old (M.mem mem.old))) wire.old
            (place self.new regs.new (M.mem mem.new)) wire.new }
        ensures only_lent { IsByController (M.mem mem.old) (M.mem mem.new) }
    {
        let mut held = held;
        let room = &mut self.out[..];
        let out = &mut room[..t.bytes as usize];
        if !load_sitd(mem, t, &held.sitd, out) {
            self.fault(regs);
            return WalkStep::Fault;
        }
        wire.transact(&t.ask, out, &mut self.reply);
        held.settle(microframe(self.index), &self.reply);
        self.hand = Some(Hand::Sitd(held));
        self.left = Ps(self.left.0.saturating_sub(t.price.0));
        WalkStep::Transact
    }

    fn write_sitd<M: HcMemory>(
        &mut self,
        held: &HeldSitd,
        outcome: SplitOutcome,
        regs: &mut Registers,
        mem: &mut M,
    ) -> WalkStep
        requires { IsSitdHeld held.now }
        ensures step { result ≡ wrote_step held.now outcome (place self.old regs.old (M.mem mem.old)) }
        ensures place { place self.new regs.new (M.mem mem.new) ≡ wrote held.now outcome (place self.old regs.old (M.mem mem.old)) }
        ensures only_lent { IsByController (M.mem mem.old) (M.mem mem.new) }
    {
        if !write_sitd(mem, held, outcome, &self.reply) {
            self.fault(regs);
            return WalkStep::Fault;
        }
        raise_sitd(regs, &held.sitd, outcome);
        self.pass(held.sitd.link);
        WalkStep::WriteBack
    }

    fn miss_sitd<M: HcMemory>(
        &mut self,
        held: HeldSitd,
        regs: &mut Registers,
        mem: &mut M,
    ) -> WalkStep
        requires { IsSitdHeld held }
        ensures step { result ≡ wrote_step (missed_copy held) SplitOutcome.Failed (place self.old regs.old (M.mem mem.old)) }
        ensures place { place self.new regs.new (M.mem mem.new)
            ≡ wrote (missed_copy held) SplitOutcome.Failed (place self.old regs.old (M.mem mem.old)) }
        ensures only_lent { IsByController (M.mem mem.old) (M.mem mem.new) }
    {
        let mut held = held;
        held.miss();
        self.write_sitd(&held, SplitOutcome::Failed, regs, mem)
    }

    fn work_sitd<W: Wire, M: HcMemory>(
        &mut self,
        held: HeldSitd,
        regs: &mut Registers,
        mem: &mut M,
        wire: &mut W,
    ) -> WalkStep
        requires { IsSitdHeld held }
        ensures step { result ≡ sitd_step (timed_row self.old.left (sitd_transaction held.sitd)) held
            (place self.old regs.old (M.mem mem.old)) }
        ensures row { HasEffect W.transacts (work_effect held (place self.old regs.old (M.mem mem.old))) wire.old
            (place self.new regs.new (M.mem mem.new)) wire.new }
        ensures only_lent { IsByController (M.mem mem.old) (M.mem mem.new) }
    {
        let t = held.next();
        if t.price > self.left {
            self.pass(held.sitd.link);
            return WalkStep::Skip;
        }
        self.transact_sitd(held, &t, regs, mem, wire)
    }

    fn turn_sitd<W: Wire, M: HcMemory>(
        &mut self,
        held: HeldSitd,
        regs: &mut Registers,
        mem: &mut M,
        wire: &mut W,
    ) -> WalkStep
        requires { IsSitdHeld held }
        ensures step { result ≡ sitd_step (turn_row self.old.left held.sitd (sitd_turn (microframe_of self.old.index) held.sitd)) held
            (place self.old regs.old (M.mem mem.old)) }
        ensures row { HasEffect W.transacts (turn_effect held (place self.old regs.old (M.mem mem.old))) wire.old
            (place self.new regs.new (M.mem mem.new)) wire.new }
        ensures only_lent { IsByController (M.mem mem.old) (M.mem mem.new) }
    {
        match turn(microframe(self.index), &held.sitd) {
            SitdTurn::Rest => {
                self.pass(held.sitd.link);
                WalkStep::Skip
            }
            SitdTurn::Work => self.work_sitd(held, regs, mem, wire),
            SitdTurn::Miss => self.miss_sitd(held, regs, mem),
        }
    }

    /// The event of a walk with a siTD in hand.
    pub(crate) fn visit_sitd<W: Wire, M: HcMemory>(
        &mut self,
        held: HeldSitd,
        regs: &mut Registers,
        mem: &mut M,
        wire: &mut W,
    ) -> WalkStep
        requires { IsSitdHeld held }
        ensures step { result ≡ sitd_step (sitd_row (place self.old regs.old (M.mem mem.old)) held) held
            (place self.old regs.old (M.mem mem.old)) }
        ensures row { HasEffect W.transacts (sitd_effect (sitd_row (place self.old regs.old (M.mem mem.old)) held) held
            (place self.old regs.old (M.mem mem.old))) wire.old (place self.new regs.new (M.mem mem.new)) wire.new }
        ensures only_lent { IsByController (M.mem mem.old) (M.mem mem.new) }
    {
        match held.settled {
            None => self.turn_sitd(held, regs, mem, wire),
            Some(outcome) => self.write_sitd(&held, outcome, regs, mem),
        }
    }
}

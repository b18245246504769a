ghost use Rattle.std.specs.Prelude.{◌≡◌, ◌↔◌};
ghost use Rattle.word_mem.specs.Access.{IsByController};
ghost use Rattle.async_walk.specs.Causes.{AreRefusalsFaults};
ghost use Rattle.periodic_walk.specs.Place.{place};
ghost use Rattle.periodic_walk.specs.Causes.{ChainEnds, HasNothing, IsStuck, IsWorked};
ghost use Rattle.periodic_walk.specs.Rows.{step_of, Leads};

use crate::state::{Hand, PeriodicState};
use async_walk::WalkStep;
use hc_memory::HcMemory;
use op_registers::Registers;
use usb_base::Wire;

/// Makes the event.
#[inline(always)]
fn turn<W: Wire, M: HcMemory>(
    st: &mut PeriodicState,
    regs: &mut Registers,
    mem: &mut M,
    wire: &mut W,
) -> WalkStep
    ensures kind { result ≡ step_of (place st.old regs.old (M.mem mem.old)) }
    ensures row { Leads W.transacts (place st.old regs.old (M.mem mem.old)) wire.old (place st.new regs.new (M.mem mem.new)) wire.new }
    ensures only_lent { IsByController (M.mem mem.old) (M.mem mem.new) }
{
    match st.hand {
        None => st.fetch(regs, mem),
        Some(Hand::Queue(held)) => st.visit_queue(held, regs, mem, wire),
        Some(Hand::Itd(held)) => st.visit_itd(held, regs, mem, wire),
        Some(Hand::Sitd(held)) => st.visit_sitd(held, regs, mem, wire),
    }
}

/// Makes one event of the periodic part of a microframe, over whatever registers, words and wire it is lent (EHCI 1.0, 4.6, 4.7, 4.10 and
/// 4.12).
///
/// - `Ended`: the chain ends.
/// - `Skip`: there is nothing to do at the structure in hand in this microframe, or no time for it.
/// - `Fault`: the cursor's link leads to no structure that is served, or a queue's link to no qTD; or a word or byte that would be read or
///   written lies past the last page or isn't Lent. Then Host System Error stands and Run is 0.
/// - Else it makes a Fetch, an Advance, a Transact or a WriteBack.
#[tactic(auto, using(crate::proofs::Causing::ends_for_a_reason, crate::proofs::Caused::ends_for_each_reason))]
pub fn step<W: Wire, M: HcMemory>(
    st: &mut PeriodicState,
    regs: &mut Registers,
    mem: &mut M,
    wire: &mut W,
) -> WalkStep
    ensures kind { result ≡ step_of (place st.old regs.old (M.mem mem.old)) }
    ensures row { Leads W.transacts (place st.old regs.old (M.mem mem.old)) wire.old (place st.new regs.new (M.mem mem.new)) wire.new }
    ensures only_lent { IsByController (M.mem mem.old) (M.mem mem.new) }
    ensures ends { (result ≡ WalkStep.Ended) ↔ ChainEnds (place st.old regs.old (M.mem mem.old)) }
    ensures skips { (result ≡ WalkStep.Skip) ↔ HasNothing (place st.old regs.old (M.mem mem.old)) }
    ensures faults { (result ≡ WalkStep.Fault) ↔ IsStuck (place st.old regs.old (M.mem mem.old)) }
    ensures works { IsWorked (place st.old regs.old (M.mem mem.old)) result }
    ensures refused { AreRefusalsFaults (M.mem mem.old) (M.mem mem.new) regs.new }
{
    turn(st, regs, mem, wire)
}

ghost use Rattle.std.specs.Prelude.{◌≡◌, ◌≢◌, ◌≤◌, length, None, Some};
ghost use Rattle.word_mem.specs.Memory.{all_lent};
ghost use Rattle.lent_words.specs.Lent.{most_lent};
ghost use Rattle.async_walk.specs.Walk.{new_walk};
ghost use Rattle.hc_core.specs.Controller.{Control, content, microframe_row, kind_of};
ghost use Rattle.op_registers.specs.Table.{after_write};
ghost use Rattle.hc_microframe.specs.Numbers.{control_of};
ghost use Rattle.hc_microframe.specs.State.{shown, file_of};
ghost use Rattle.hc_microframe.specs.Stepping.{IsStepped, IsHeldUp, LeavesWords, control_after_write};
ghost use Rattle.hc_microframe.specs.EventCalls.{kind_number};

use crate::desk::Desk;
use crate::state::{registers_of, state_of};
use crate::whole::{RingWords, Whole};
use hc_core::{Controller, HcStep};
use lent_words::{Lender, Loan, Ram};
use op_registers::Registers;
use std::marker::Brand;
use std::mem;

/// What came of a call for one event.
#[derive(Clone, Copy, Debug, PartialEq, Eq)]
pub enum Stepped {
    /// An event of this kind was made.
    Event(HcStep),
    /// Nothing changed: the event asks what has no answer, and the desk tells what.
    WantsBus,
    /// Nothing changed: the words are more than 1,073,741,816, or the numbers are no controller's.
    Unfit,
}

/// Makes one event, of this kind, over the words of a loan, which is given back.
fn step_by<'a, L: Lender>(
    loan: Loan<'a>,
    controller: &mut Controller,
    regs: &mut Registers,
    desk: &mut Desk<'_, '_>,
    kind: &mut HcStep,
) -> Loan<'a>
    requires name { loan.words.ghost_name ≡ L.name }
    requires few { length loan.words.now ≤ most_lent }
    ensures same_reference { result.words.ghost_name ≡ loan.entry.words.ghost_name }
    ensures kind { let start = content controller.old regs.old (all_lent loan.entry.words.now) in
        kind.new ≡ kind_of (microframe_row regs.old controller.old) start }
    ensures row { let start = content controller.old regs.old (all_lent loan.entry.words.now) in
        LeavesWords start desk.old controller.new regs.new result.words.now desk.new }
    ensures length { length result.words.now ≡ length loan.entry.words.now }
{
    let mut ram: Ram<'a, L> = Ram::of(loan);
    *kind = controller.step(regs, &mut ram, desk);
    ram.into_loan()
}

/// Makes one event over lent words.
fn step_in<'a>(
    loan: &mut Loan<'a>,
    controller: &mut Controller,
    regs: &mut Registers,
    desk: &mut Desk<'_, '_>,
) -> HcStep
    requires { length loan.old.words.now ≤ most_lent }
    ensures same_reference { loan.new.words.ghost_name ≡ loan.old.words.ghost_name }
    ensures kind { let start = content controller.old regs.old (all_lent loan.old.words.now) in
        result ≡ kind_of (microframe_row regs.old controller.old) start }
    ensures row { let start = content controller.old regs.old (all_lent loan.old.words.now) in
        LeavesWords start desk.old controller.new regs.new loan.new.words.now desk.new }
    ensures length { length loan.new.words.now ≡ length loan.old.words.now }
{
    let taken = mem::replace(loan, Loan { words: &mut [] });
    let mut kind = HcStep::Idle;
    *loan = step_by::<Brand>(taken, controller, regs, desk, &mut kind);
    kind
}

/// Makes one event, over these words, all of whose whole blocks the controller may reach, and the bus of this desk.
pub fn step(whole: &mut Whole, words: &mut [u32], desk: &mut Desk<'_, '_>) -> Stepped
    requires { desk.old.wanted ≡ None }
    ensures event { (kind : HcStep) → result ≡ Stepped.Event kind
        → IsStepped whole.old words.old desk.old kind whole.new words.new desk.new }
    ensures wants { result ≡ Stepped.WantsBus → IsHeldUp whole.old words.old desk.old desk.new }
    ensures unfit { result ≡ Stepped.Unfit → length words.old ≤ most_lent → (c : Control) → control_of whole.old ≢ Some c }
    ensures stays { ((kind : HcStep) → result ≢ Stepped.Event kind) → (whole.new ≡ whole.old) × (words.new ≡ words.old) }
    ensures length { length words.new ≡ length words.old }
{
    if words.len() > 1_073_741_816 {
        return Stepped::Unfit;
    }
    let mut controller = Controller::new();
    if !whole.load(&mut controller) {
        return Stepped::Unfit;
    }
    let mut regs = registers_of(&whole.registers);
    let mut loan = Loan::of(words);
    let kind = step_in(&mut loan, &mut controller, &mut regs, desk);
    if desk.is_asked() {
        return Stepped::WantsBus;
    }
    whole.set(&controller, &regs);
    Stepped::Event(kind)
}

/// The walk of the ring begins anew.
fn begin_ring(whole: &mut Whole)
    ensures registers { whole.new.registers ≡ whole.old.registers }
    ensures control { (c : Control) → control_of whole.old ≡ Some c → control_of whole.new ≡ Some (record c { walk = new_walk }) }
{
    whole.ring = RingWords::new();
}

/// Where a driver's write leaves the controller.
fn turn_back(whole: &mut Whole, at: u32, word: u32)
    ensures registers { whole.new.registers ≡ whole.old.registers }
    ensures control { (c : Control) → control_of whole.old ≡ Some c → control_of whole.new ≡ Some (control_after_write at word c) }
{
    if at == 0x18 {
        begin_ring(whole);
        return;
    }
    if at == 0x00 && word / 2 % 2 == 1 {
        whole.begin_anew();
    }
}

/// A driver's write at an offset in bytes from the first operational register, between two events. A reset has the controller begin anew
/// (EHCI 1.0, 2.3.1), and a new ASYNCLISTADDR the walk of the ring (2.3.7).
pub fn write_between(whole: &mut Whole, at: u32, word: u32)
    ensures registers { whole.new.registers ≡ shown (after_write (file_of whole.old.registers) at word) 0 }
    ensures control { (c : Control) → control_of whole.old ≡ Some c → control_of whole.new ≡ Some (control_after_write at word c) }
{
    turn_back(whole, at, word);
    let mut regs = registers_of(&whole.registers);
    regs.driver_write(at, word);
    whole.registers = state_of(&regs, 0);
}

/// The number of a kind of event: 0 idle, 1 begin, 2 fetch, 3 advance, 4 transact, 5 write-back, 6 skip, 7 end.
pub fn kind_number(kind: HcStep) -> u32
    ensures number { result ≡ kind_number kind }
    ensures known { result ≤ 7 }
{
    match kind {
        HcStep::Idle => 0,
        HcStep::Begin => 1,
        HcStep::Fetch => 2,
        HcStep::Advance => 3,
        HcStep::Transact => 4,
        HcStep::WriteBack => 5,
        HcStep::Skip => 6,
        HcStep::End => 7,
    }
}

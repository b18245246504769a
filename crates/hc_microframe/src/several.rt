ghost use Rattle.std.specs.Prelude.{◌≡◌, ◌≢◌, ◌≤◌, ◌-◌, ℕ, length, true, false, [], None, Some, is_some};
ghost use Rattle.word_mem.specs.Memory.{all_lent};
ghost use Rattle.lent_words.specs.Lent.{most_lent, lent_mem};
ghost use Rattle.hc_core.specs.Controller.{Control, content, address_in_hand};
ghost use Rattle.hc_microframe.specs.Numbers.{control_of};
ghost use Rattle.hc_microframe.specs.State.{shown, file_of};
ghost use Rattle.hc_microframe.specs.Several.{MakesNext, AsksNext, Leaves, IsRun, IsRunOver, IsRunHeldUp};

use crate::desk::Desk;
use crate::making::is_last;
use crate::state::registers_of;
use crate::whole::Whole;
use hc_core::{Controller, HcStep};
use lent_words::{Lender, Loan, Ram};
use op_registers::Registers;
use std::marker::Brand;
use std::mem;

/// Why a call for several events made no more of them.
#[derive(Clone, Copy, Debug, PartialEq, Eq)]
pub enum RunStop {
    /// The controller doesn't run: Run is 0. Nothing changed.
    Idle,
    /// The last of so many events ended the microframe: its End, or one that halted the controller.
    Over(u32),
    /// So many events were made, and the next asks what has no answer; the desk tells what.
    WantsBus(u32),
    /// As many events as were allowed were made, and the microframe isn't over.
    Long,
    /// Nothing changed: the words are more than 1,073,741,816, or the numbers are no controller's.
    Unfit,
}

/// Where no answer is left and a copy is in hand, so that the next event may ask, `whole` tells the state.
fn keep(whole: &mut Whole, controller: &Controller, regs: &Registers, desk: &Desk<'_, '_>)
    ensures control { desk.now.answers ≡ [] → is_some (address_in_hand controller.now) ≡ true → control_of whole.new ≡ Some controller.now }
    ensures registers { desk.now.answers ≡ [] → is_some (address_in_hand controller.now) ≡ true → whole.new.registers ≡ shown regs.now 0 }
{
    if desk.is_empty() && controller.held().is_some() {
        whole.set(controller, regs);
    }
}

/// Makes one event; None: it asks what has no answer, and `whole` tells the state before it.
fn make_one<'a, L: Lender>(
    whole: &mut Whole,
    controller: &mut Controller,
    regs: &mut Registers,
    ram: &mut Ram<'a, L>,
    desk: &mut Desk<'_, '_>,
) -> Option<HcStep>
    requires { desk.old.wanted ≡ None }
    ensures made { let old = content controller.old regs.old (lent_mem ram.old.words.now ram.old.foreign) in
        let new = content controller.new regs.new (lent_mem ram.new.words.now ram.new.foreign) in
        (kind : HcStep) → result ≡ Some kind → MakesNext old desk.old kind new desk.new }
    ensures asks { let old = content controller.old regs.old (lent_mem ram.old.words.now ram.old.foreign) in
        let new = content controller.new regs.new (lent_mem ram.new.words.now ram.new.foreign) in
        result ≡ None → AsksNext old desk.old whole.new new desk.new }
    ensures length { length ram.new.words.now ≡ length ram.old.words.now }
{
    keep(whole, controller, regs, desk);
    let kind = controller.step(regs, ram, desk);
    if desk.is_asked() {
        return None;
    }
    Some(kind)
}

/// Makes events until one is the last of its microframe, the next asks what has no answer, or so many are made.
fn make_all<'a, L: Lender>(
    whole: &mut Whole,
    controller: &mut Controller,
    regs: &mut Registers,
    ram: &mut Ram<'a, L>,
    desk: &mut Desk<'_, '_>,
    most: u32,
) -> RunStop
    requires wanted { desk.old.wanted ≡ None }
    requires foreign { ram.old.foreign ≡ 0 }
    ensures leaves { let start = content controller.old regs.old (all_lent ram.old.words.now) in
        Leaves result start desk.old most whole.new ram.new.words.now desk.new }
    ensures length { length ram.new.words.now ≡ length ram.old.words.now }
{
    for event in 0..most {
        match make_one(whole, controller, regs, ram, desk) {
            None => return RunStop::WantsBus(event),
            Some(kind) => {
                if is_last(kind, regs.running()) {
                    whole.set(controller, regs);
                    return RunStop::Over(event + 1);
                }
            }
        }
    }
    whole.set(controller, regs);
    RunStop::Long
}

/// The same over the words of a loan, which is given back.
fn run_by<'a, L: Lender>(
    loan: Loan<'a>,
    whole: &mut Whole,
    controller: &mut Controller,
    regs: &mut Registers,
    desk: &mut Desk<'_, '_>,
    most: u32,
    stop: &mut RunStop,
) -> Loan<'a>
    requires name { loan.words.ghost_name ≡ L.name }
    requires few { length loan.words.now ≤ most_lent }
    requires wanted { desk.old.wanted ≡ None }
    ensures same_reference { result.words.ghost_name ≡ loan.entry.words.ghost_name }
    ensures leaves { let start = content controller.old regs.old (all_lent loan.entry.words.now) in
        Leaves stop.new start desk.old most whole.new result.words.now desk.new }
    ensures length { length result.words.now ≡ length loan.entry.words.now }
{
    let mut ram: Ram<'a, L> = Ram::of(loan);
    *stop = make_all(whole, controller, regs, &mut ram, desk, most);
    ram.into_loan()
}

/// The same over lent words.
fn run_in<'a>(
    loan: &mut Loan<'a>,
    whole: &mut Whole,
    controller: &mut Controller,
    regs: &mut Registers,
    desk: &mut Desk<'_, '_>,
    most: u32,
) -> RunStop
    requires few { length loan.old.words.now ≤ most_lent }
    requires wanted { desk.old.wanted ≡ None }
    ensures same_reference { loan.new.words.ghost_name ≡ loan.old.words.ghost_name }
    ensures leaves { let start = content controller.old regs.old (all_lent loan.old.words.now) in
        Leaves result start desk.old most whole.new loan.new.words.now desk.new }
    ensures length { length loan.new.words.now ≡ length loan.old.words.now }
{
    let taken = mem::replace(loan, Loan { words: &mut [] });
    let mut stop = RunStop::Long;
    *loan = run_by::<Brand>(taken, whole, controller, regs, desk, most, &mut stop);
    stop
}

/// Makes events over these words, all of whose whole blocks the controller may reach, and the bus of this desk, until one is the last of
/// its microframe, the next asks what has no answer, or `most` are made. The numbers of the state are read and written once.
pub fn run(whole: &mut Whole, words: &mut [u32], desk: &mut Desk<'_, '_>, most: u32) -> RunStop
    requires { desk.old.wanted ≡ None }
    ensures over { (n : ℕ) → result ≡ RunStop.Over n → IsRunOver whole.old words.old desk.old n whole.new words.new desk.new }
    ensures wants { (n : ℕ) → result ≡ RunStop.WantsBus n → IsRunHeldUp whole.old words.old desk.old n whole.new words.new desk.new }
    ensures long { result ≡ RunStop.Long → IsRun whole.old words.old desk.old most whole.new words.new desk.new }
    ensures idle { result ≡ RunStop.Idle → (file_of whole.old.registers).run ≡ false }
    ensures unfit { result ≡ RunStop.Unfit → length words.old ≤ most_lent → (c : Control) → control_of whole.old ≢ Some c }
    ensures idle_stays { result ≡ RunStop.Idle → (whole.new ≡ whole.old) × (words.new ≡ words.old) }
    ensures unfit_stays { result ≡ RunStop.Unfit → (whole.new ≡ whole.old) × (words.new ≡ words.old) }
    ensures idle_desk { result ≡ RunStop.Idle → desk.new ≡ desk.old }
    ensures unfit_desk { result ≡ RunStop.Unfit → desk.new ≡ desk.old }
    ensures over_allowed { (n : ℕ) → result ≡ RunStop.Over n → n ≤ most }
    ensures wants_allowed { (n : ℕ) → result ≡ RunStop.WantsBus n → n ≤ most }
    ensures length { length words.new ≡ length words.old }
{
    if words.len() > 1_073_741_816 {
        return RunStop::Unfit;
    }
    let mut controller = Controller::new();
    if !whole.load(&mut controller) {
        return RunStop::Unfit;
    }
    let mut regs = registers_of(&whole.registers);
    if !regs.running() {
        return RunStop::Idle;
    }
    let mut loan = Loan::of(words);
    run_in(&mut loan, whole, &mut controller, &mut regs, desk, most)
}

ghost use Rattle.std.specs.Prelude.{◌≡◌, ◌≢◌, ℕ, ◌+◌, ◌||◌, not, Option, length, Some, None, true, is_none};
ghost use Rattle.word_mem.specs.Access.{IsByController};
ghost use Rattle.hc_core.specs.Controller.{content};
ghost use Rattle.hc_microframe.specs.Answers.{Told};
ghost use Rattle.hc_microframe.specs.Microframe.{is_end, Goes, IsOver, IsAsked};

use crate::desk::Desk;
use hc_core::{Controller, HcStep};
use op_registers::Registers;
use word_mem::WordMem;

/// Why no further event was made.
#[derive(Clone, Copy, Debug, PartialEq, Eq)]
pub(crate) enum Stop {
    /// The microframe is over, after so many events; before the last of them the structure at this address was in hand.
    Over(u32, Option<u32>),
    /// The last of so many events asked what has no answer.
    Asked(u32),
    /// The microframe isn't over.
    Long,
}

/// Whether an event of this kind, which leaves the controller running or not, is the last of its microframe.
pub(crate) fn is_last(step: HcStep, running: bool) -> bool
    ensures { result ≡ (is_end step || not running) }
{
    !running || step == HcStep::End
}

/// Makes the events of one microframe, at most so many.
pub(crate) fn make(
    controller: &mut Controller,
    regs: &mut Registers,
    mem: &mut WordMem,
    desk: &mut Desk<'_, '_>,
    most: u32,
) -> Stop
    requires { desk.old.wanted ≡ None }
    ensures over { let start = content controller.old regs.old mem.old in let end = content controller.new regs.new mem.new in
        (n : ℕ) (held : Option ℕ) → result ≡ Stop.Over n held → IsOver start desk.old n held end desk.new }
    ensures asked { (n : ℕ) → result ≡ Stop.Asked n → IsAsked (content controller.old regs.old mem.old) desk.old n desk.new }
    ensures long { let start = content controller.old regs.old mem.old in
        result ≡ Stop.Long → Goes start desk.old most (content controller.new regs.new mem.new) desk.new }
    ensures only_lent { IsByController mem.old mem.new }
{
    for event in 0..most {
        let held = controller.held();
        let step = controller.step(regs, mem, desk);
        if desk.is_asked() {
            return Stop::Asked(event + 1);
        }
        if is_last(step, regs.running()) {
            return Stop::Over(event + 1, held);
        }
    }
    Stop::Long
}

/// Copies the words of a memory over as many words.
pub(crate) fn copy_back(mem: &WordMem, words: &mut [u32])
    requires { length words.old ≡ length mem.now.words }
    ensures { words.new ≡ mem.now.words }
{
    for place in 0..mem.words() {
        let word = mem.word(4 * place);
        words[place as usize] = word;
    }
}

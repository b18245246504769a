ghost use Rattle.std.specs.Prelude.{◌≡◌, ◌≢◌, ◌↔◌, ℕ, ◌≤◌, ◌%◌, Option, length, false, true, IsTrue, not, if◌then◌else◌};
ghost use Rattle.usb_base.specs.Limits.{most_memory};
ghost use Rattle.op_registers.specs.Table.{after_write};
ghost use Rattle.hc_microframe.specs.Answers.{Told};
ghost use Rattle.hc_microframe.specs.State.{shown, file_of};
ghost use Rattle.hc_microframe.specs.Microframe.{entered_at, cursor_after, IsMade, IsWanted, IsLong, IsFit};

use crate::desk::Desk;
use crate::making::{Stop, copy_back, make};
use crate::state::{State, registers_of, state_of};
use hc_core::Controller;
use op_registers::Registers;
use std::alloc::Global;
use usb_base::limits::MOST_MEMORY;
use word_mem::WordMem;

/// What came of a call.
#[derive(Clone, Copy, Debug, PartialEq, Eq)]
pub enum Ran {
    /// The controller doesn't run: Run is 0. Nothing changed.
    Halted,
    /// One microframe was made, of so many events. After a host system error, which ended it, Run is 0.
    Made(u32),
    /// Nothing changed: the last of so many events asked what has no answer, and the desk tells what.
    WantsBus(u32),
    /// Nothing changed: the microframe has more events than were allowed.
    Long,
    /// Nothing changed: the words are no memory of a controller. They are 1,024 to 262,144, in steps of 1,024.
    Unfit,
    /// Nothing changed: there was no memory for a copy of the words.
    NoMemory,
}

/// Whether a controller's memory has so many words.
pub(crate) fn is_fit(words: usize) -> bool
    ensures { IsTrue result ↔ IsFit words }
{
    words >= 1024 && words <= MOST_MEMORY as usize && words % 1024 == 0
}

/// Has the walk of the ring begin where it goes on.
fn enter(regs: &mut Registers, cursor: u32)
    ensures { regs.new ≡ entered_at cursor regs.old }
{
    if cursor != 0 {
        regs.driver_write(0x18, cursor);
    }
}

/// Where the walk of the ring goes on in the next microframe.
fn next_cursor(cursor: u32, held: Option<u32>, regs: &Registers) -> u32
    ensures { result ≡ cursor_after cursor held regs.now }
{
    if !regs.running() {
        return 0;
    }
    if regs.async_on() {
        return held.unwrap_or(0);
    }
    cursor
}

/// The state after a microframe of this one.
fn left_by(state: &State, held: Option<u32>, regs: &mut Registers) -> State
    ensures { result ≡ shown (after_write regs.old 0x18 state.now.ring) (cursor_after state.now.cursor held regs.old) }
{
    let cursor = next_cursor(state.cursor, held, regs);
    regs.driver_write(0x18, state.ring);
    state_of(regs, cursor)
}

/// Makes one microframe of a controller that runs, over these words, all of which it may reach, and the bus of this desk; of at most `most`
/// events, as a ring without a head, or a frame whose chain is a circle, has no end.
pub fn microframe(
    alloc: Global,
    state: &mut State,
    words: &mut [u32],
    desk: &mut Desk<'_, '_>,
    most: u32,
) -> Ran
    requires { desk.old.wanted ≡ None }
    ensures halted { (result ≡ Ran.Halted) ↔ ((file_of state.old).run ≡ false) }
    ensures unfit { result ≡ Ran.Unfit → IsFit (length words.old) → ⊥ }
    ensures made { (n : ℕ) → result ≡ Ran.Made n → IsMade state.old words.old desk.old n state.new words.new desk.new }
    ensures wants { (n : ℕ) → result ≡ Ran.WantsBus n → IsWanted state.old words.old desk.old n desk.new }
    ensures long { result ≡ Ran.Long → IsLong state.old words.old desk.old most }
    ensures stays { ((n : ℕ) → result ≢ Ran.Made n) → (state.new ≡ state.old) × (words.new ≡ words.old) }
    ensures length { length words.new ≡ length words.old }
{
    let mut regs = registers_of(state);
    if !regs.running() {
        return Ran::Halted;
    }
    if !is_fit(words.len()) {
        return Ran::Unfit;
    }
    let Ok(mut mem) = WordMem::from_words(alloc, words) else {
        return Ran::NoMemory;
    };
    enter(&mut regs, state.cursor);
    let mut controller = Controller::new();
    match make(&mut controller, &mut regs, &mut mem, desk, most) {
        Stop::Over(events, held) => {
            *state = left_by(state, held, &mut regs);
            copy_back(&mem, words);
            Ran::Made(events)
        }
        Stop::Asked(events) => Ran::WantsBus(events),
        Stop::Long => Ran::Long,
    }
}

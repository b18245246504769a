//! The controller for C: the calls of `hc_microframe`, which include/ehci.h declares and tells in words.
//!
//! No call calls back, and none keeps a pointer. Whatever C passes, a call ends, and touches nothing but what it is lent.
#![tactic(auto)]

mod events;

ghost use Rattle.std.specs.Prelude.{◌≡◌, ◌≢◌, ◌≤◌, false, length, unwrap_or, IfSome};
ghost use Rattle.op_registers.specs.RegisterFile.{reset_file};
ghost use Rattle.op_registers.specs.Table.{word_at, after_write};
ghost use Rattle.hc_microframe.specs.State.{shown, file_of, cursor_after_write, is_up};
ghost use Rattle.hc_microframe.specs.Answers.{told};
ghost use Rattle.hc_microframe.specs.Microframe.{IsFit, IsLong};
ghost use Rattle.hc_microframe.specs.Calls.{IsTold, Makes, Asks};

pub use events::{ehci_run, ehci_step, ehci_whole_reset, ehci_whole_write};
use hc_microframe::{Answer, AskWords, Desk, Ran, State, Wanted, ask_words, microframe};
use std::alloc::Global;

/// A controller after a reset.
#[unsafe(no_mangle)]
pub extern "C" fn ehci_reset(state: &mut State)
    ensures { state.new ≡ shown reset_file 0 }
{
    *state = hc_microframe::reset();
}

/// What a driver reads at an offset in bytes from the first operational register; all ones where there is no register.
#[unsafe(no_mangle)]
pub extern "C" fn ehci_read(state: &State, offset: u32) -> u32
    ensures { result ≡ unwrap_or (word_at (file_of state.now) offset) 0xffff_ffff }
{
    hc_microframe::read(state, offset)
}

/// A driver's write at an offset in bytes from the first operational register; nothing changes where there is no register.
#[unsafe(no_mangle)]
pub extern "C" fn ehci_write(state: &mut State, offset: u32, word: u32)
    ensures { state.new ≡ shown (after_write (file_of state.old) offset word) (cursor_after_write state.old.cursor offset word) }
{
    hc_microframe::write(state, offset, word);
}

/// Whether the interrupt line is up.
#[unsafe(no_mangle)]
pub extern "C" fn ehci_interrupts(state: &State) -> bool
    ensures { result ≡ is_up state.now }
{
    hc_microframe::interrupts(state)
}

/// Writes down what is wanted.
fn tell(wanted: &Wanted, ask: &mut AskWords, out: &mut [u8])
    requires { 1024 ≤ length out.old }
    ensures told { IsTold wanted.now ask.new out.new }
    ensures length { length out.new ≡ length out.old }
{
    *ask = ask_words(wanted);
    let bytes = wanted.out.as_slice();
    out[..bytes.len()].copy_from_slice(bytes);
}

/// Writes down what the desk was asked when no answer was left, if something was.
pub(crate) fn tell_asked(desk: &Desk<'_, '_>, ask: &mut AskWords, out: &mut [u8])
    requires { 1024 ≤ length out.old }
    ensures { IfSome desk.now.wanted (λ wanted. IsTold wanted ask.new out.new) }
{
    if let Some(wanted) = desk.wanted() {
        tell(wanted, ask, out);
    }
}

/// Makes one microframe of a controller that runs, of at most `*events` events, over these words and the bus that gives these answers, one
/// to each transaction in its turn.
///
/// - 0: the controller doesn't run.
/// - 1: a microframe was made, of `*events` events.
/// - 2: the `*events`-th event asks what has no answer: `ask`, with the first `ask.out_len` bytes of `out`.
/// - 3: the microframe has more than `*events` events.
/// - 4: the words aren't 1,024 to 262,144 in steps of 1,024, or `out` has room for fewer than 1,024 bytes.
/// - 5: there was no memory for a copy of the words.
///
/// But for 1 the state and the words stay.
#[unsafe(no_mangle)]
pub extern "C" fn ehci_microframe(
    alloc: Global,
    state: &mut State,
    words: &mut [u32],
    answers: &[Answer],
    bytes: &[u8],
    events: &mut u32,
    ask: &mut AskWords,
    out: &mut [u8],
) -> u32
    ensures made { result ≡ 1 → Makes state.old words.old answers.now bytes.now events.new state.new words.new }
    ensures wants { result ≡ 2 → Asks state.old words.old answers.now bytes.now events.new ask.new out.new }
    ensures long { result ≡ 3 → IsLong state.old words.old (told answers.now bytes.now) events.old }
    ensures unfit { result ≡ 4 → IsFit (length words.old) → 1024 ≤ length out.old → ⊥ }
    ensures halted { result ≡ 0 → (file_of state.old).run ≡ false }
    ensures known { result ≤ 5 }
    ensures stays { result ≢ 1 → (state.new ≡ state.old) × (words.new ≡ words.old) }
{
    if out.len() < 1024 {
        return 4;
    }
    let mut desk = Desk::of(answers, bytes);
    match microframe(alloc, state, words, &mut desk, *events) {
        Ran::Halted => 0,
        Ran::Made(made) => {
            *events = made;
            1
        }
        Ran::WantsBus(made) => {
            *events = made;
            tell_asked(&desk, ask, out);
            2
        }
        Ran::Long => 3,
        Ran::Unfit => 4,
        Ran::NoMemory => 5,
    }
}

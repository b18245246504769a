ghost use Rattle.std.specs.Prelude.{◌≡◌, ◌≢◌, ◌≤◌, false, length, Some};
ghost use Rattle.lent_words.specs.Lent.{most_lent};
ghost use Rattle.op_registers.specs.RegisterFile.{reset_file};
ghost use Rattle.op_registers.specs.Table.{after_write};
ghost use Rattle.hc_core.specs.Controller.{Control, new_control};
ghost use Rattle.hc_microframe.specs.State.{shown, file_of};
ghost use Rattle.hc_microframe.specs.Numbers.{control_of};
ghost use Rattle.hc_microframe.specs.Stepping.{control_after_write};
ghost use Rattle.hc_microframe.specs.EventCalls.{Steps, HoldsUp, Runs, RunsOver, RunsToAsk};

use crate::tell_asked;
use hc_microframe::{Answer, AskWords, Desk, RunStop, Stepped, Whole, kind_number};

/// A controller after a reset, between two events.
#[unsafe(no_mangle)]
pub extern "C" fn ehci_whole_reset(whole: &mut Whole)
    ensures control { control_of whole.new ≡ Some new_control }
    ensures registers { whole.new.registers ≡ shown reset_file 0 }
{
    *whole = hc_microframe::reset_whole();
}

/// A driver's write at an offset in bytes from the first operational register, between two events.
#[unsafe(no_mangle)]
pub extern "C" fn ehci_whole_write(whole: &mut Whole, offset: u32, word: u32)
    ensures registers { whole.new.registers ≡ shown (after_write (file_of whole.old.registers) offset word) 0 }
    ensures control { (c : Control) → control_of whole.old ≡ Some c → control_of whole.new ≡ Some (control_after_write offset word c) }
{
    hc_microframe::write_between(whole, offset, word);
}

/// Makes one event over these words and a bus that gives these answers, one or none.
///
/// - 0 to 7: an event of this kind was made.
/// - 8: it asks what has no answer: `ask`, with the first `ask.out_len` bytes of `out`.
/// - 9: the words are more than 1,073,741,816, `out` has room for fewer than 1,024 bytes, or the state is no controller's.
///
/// From 8 on the state and the words stay.
#[unsafe(no_mangle)]
pub extern "C" fn ehci_step(
    whole: &mut Whole,
    words: &mut [u32],
    answers: &[Answer],
    bytes: &[u8],
    ask: &mut AskWords,
    out: &mut [u8],
) -> u32
    ensures event { result ≤ 7 → Steps whole.old words.old answers.now bytes.now result whole.new words.new }
    ensures wants { result ≡ 8 → HoldsUp whole.old words.old answers.now bytes.now ask.new out.new }
    ensures unfit { result ≡ 9 → length words.old ≤ most_lent → 1024 ≤ length out.old → (c : Control) → control_of whole.old ≢ Some c }
    ensures known { result ≤ 9 }
    ensures stays { 8 ≤ result → (whole.new ≡ whole.old) × (words.new ≡ words.old) }
{
    if out.len() < 1024 {
        return 9;
    }
    let mut desk = Desk::of(answers, bytes);
    match hc_microframe::step(whole, words, &mut desk) {
        Stepped::Event(kind) => kind_number(kind),
        Stepped::WantsBus => {
            tell_asked(&desk, ask, out);
            8
        }
        Stepped::Unfit => 9,
    }
}

/// Makes events over these words and a bus that gives these answers, one to each transaction in its turn: until one ends the microframe,
/// the next asks what has no answer, or `*events` were made. `*events` tells how many that were, and `*used` how many answers they took.
///
/// - 0: Run is 0.
/// - 7: the last of them ended the microframe.
/// - 8: the next asks what has no answer: `ask`, with the first `ask.out_len` bytes of `out`. It isn't made.
/// - 9: the words are more than 1,073,741,816, `out` has room for fewer than 1,024 bytes, or the state is no controller's.
/// - 10: as many were made as were allowed, and the microframe isn't over.
///
/// For 0 and 9 the state and the words stay, and both numbers are 0. For 8 all answers were taken.
#[unsafe(no_mangle)]
pub extern "C" fn ehci_run(
    whole: &mut Whole,
    words: &mut [u32],
    answers: &[Answer],
    bytes: &[u8],
    events: &mut u32,
    used: &mut usize,
    ask: &mut AskWords,
    out: &mut [u8],
) -> u32
    ensures over { result ≡ 7 → RunsOver whole.old words.old answers.now bytes.now events.new used.new whole.new words.new }
    ensures wants { result ≡ 8 →
        RunsToAsk whole.old words.old answers.now bytes.now events.new used.new whole.new words.new ask.new out.new }
    ensures long { result ≡ 10 → Runs whole.old words.old answers.now bytes.now events.old used.new whole.new words.new }
    ensures allowed { events.new ≤ events.old }
    ensures idle { result ≡ 0 → (file_of whole.old.registers).run ≡ false }
    ensures unfit { result ≡ 9 → length words.old ≤ most_lent → 1024 ≤ length out.old → (c : Control) → control_of whole.old ≢ Some c }
    ensures idle_none { result ≡ 0 → (events.new ≡ 0) × (used.new ≡ 0) }
    ensures unfit_none { result ≡ 9 → (events.new ≡ 0) × (used.new ≡ 0) }
    ensures known { result ≤ 10 }
    ensures idle_stays { result ≡ 0 → (whole.new ≡ whole.old) × (words.new ≡ words.old) }
    ensures unfit_stays { result ≡ 9 → (whole.new ≡ whole.old) × (words.new ≡ words.old) }
{
    let most = *events;
    *used = 0;
    if out.len() < 1024 {
        *events = 0;
        return 9;
    }
    let mut desk = Desk::of(answers, bytes);
    let stop = hc_microframe::run(whole, words, &mut desk, most);
    *used = answers.len().saturating_sub(desk.left());
    match stop {
        RunStop::Idle => {
            *events = 0;
            0
        }
        RunStop::Over(made) => {
            *events = made;
            7
        }
        RunStop::WantsBus(made) => {
            *events = made;
            tell_asked(&desk, ask, out);
            8
        }
        RunStop::Long => 10,
        RunStop::Unfit => {
            *events = 0;
            9
        }
    }
}

//! Holding the words of a line against forms.
ghost use Rattle.std.specs.Prelude.{◌≡◌, ◌≤◌, length, IfSome, Option, slice_get, slice_index_or};
ghost use Rattle.script_forms.specs.Table.{slots_of};
ghost use Rattle.script_forms.specs.Fitting.{fits, is_ranged, all_ranged, reach, blame, marked, worse, further, joined, held, verdict, form_of};

use crate::causes::TextWhy;
use crate::hexes::{is_hex, is_setup};
use crate::numbers::number_of;
use crate::table::{FirstWord, Form, Keyword, Slot, forms, keyword_text, slots};
use crate::words::Word;

/// How far words fit a form, and why no further.
#[derive(Clone, Copy)]
pub struct Mark {
    /// How many words fit, from the first on.
    at: usize,
    /// Why the next one doesn't.
    why: TextWhy,
    form: Form,
}

/// Whether a word may stand in a slot, whatever its value.
fn fits(slot: Slot, word: &[u8]) -> bool
    ensures { result ≡ fits slot word.now }
{
    match slot {
        Slot::Number(_, _) => number_of(word).is_some(),
        Slot::Hex => is_hex(word),
        Slot::Setup => is_setup(word),
        Slot::Key(keyword) => word == keyword_text(keyword),
        Slot::Way => word == keyword_text(Keyword::In)
            || word == keyword_text(Keyword::Out)
            || word == keyword_text(Keyword::Ctl),
        Slot::Bus => word == keyword_text(Keyword::High) || word == keyword_text(Keyword::Down),
        Slot::Fate => word == keyword_text(Keyword::Lost) || word == keyword_text(Keyword::Damaged),
    }
}

/// Whether the number in a slot is in its range.
fn is_ranged(slot: Slot, word: &[u8]) -> bool
    ensures { result ≡ is_ranged slot word.now }
{
    match slot {
        Slot::Number(low, high) => match number_of(word) {
            Some(n) => low <= n && n <= high,
            None => false,
        },
        _ => true,
    }
}

#[tactic(auto, using(crate::proofs::Ends::ranged_end))]
/// Whether all numbers are in the ranges of their slots.
fn are_ranged(slots: &[Slot], words: &[Word]) -> bool
    ensures { result ≡ all_ranged slots.now words.now }
{
    let mut at = 0;
    while at < slots.len() && at < words.len() {
        if !is_ranged(slots[at], words[at].bytes()) {
            return false;
        }
        at += 1;
    }
    true
}

#[tactic(auto, using(crate::proofs::Ends::reach_end))]
/// How many words fit, from the first on.
fn reach(slots: &[Slot], words: &[Word]) -> usize
    ensures { result ≡ reach slots.now words.now }
{
    let mut at = 0;
    while at < slots.len() && at < words.len() {
        if !fits(slots[at], words[at].bytes()) {
            return at;
        }
        at += 1;
    }
    at
}

/// Why a word doesn't fit the slot at a place.
fn blame(slots: &[Slot], at: usize) -> TextWhy
    ensures { result ≡ blame (slice_get slots.now at) }
{
    match slots.get(at) {
        Some(Slot::Number(_, _)) => TextWhy::Number,
        Some(Slot::Hex) => TextWhy::Hex,
        Some(Slot::Setup) => TextWhy::Hex,
        _ => TextWhy::Word,
    }
}

/// How far the words fit a form.
fn marked(form: Form, words: &[Word]) -> Mark
    ensures { result ≡ marked form words.now }
{
    let slots = slots(form);
    let at = reach(slots, words);
    Mark {
        at,
        why: blame(slots, at),
        form,
    }
}

/// The worse of two causes at one place.
fn worse(one: TextWhy, other: TextWhy) -> TextWhy
    ensures { result ≡ worse one other }
{
    match (one, other) {
        (TextWhy::Hex, _) => TextWhy::Hex,
        (_, TextWhy::Hex) => TextWhy::Hex,
        _ => one,
    }
}

/// The further of two marks.
fn further(one: Mark, other: Mark) -> Mark
    ensures { result ≡ further one other }
{
    if one.at < other.at {
        return other;
    }
    if other.at < one.at {
        return one;
    }
    Mark {
        at: one.at,
        why: worse(one.why, other.why),
        form: one.form,
    }
}

/// The best mark so far after one more form.
fn held(words: &[Word], best: Option<Mark>, form: Form) -> Option<Mark>
    ensures { result ≡ held words.now best form }
{
    if slots(form).len() != words.len() {
        return best;
    }
    match best {
        None => Some(marked(form, words)),
        Some(best) => Some(further(best, marked(form, words))),
    }
}

/// What the furthest form says.
fn verdict(words: &[Word], best: Option<Mark>) -> Result<Form, TextWhy>
    ensures { result ≡ verdict words.now best }
{
    let Some(mark) = best else {
        return Err(TextWhy::Count);
    };
    if mark.at != words.len() {
        return Err(mark.why);
    }
    if are_ranged(slots(mark.form), words) {
        return Ok(mark.form);
    }
    Err(TextWhy::Range)
}

/// The form that the words behind a first word fit in a version of the language. `Count`: no form has this number of words.
/// `Number`, `Hex` or `Word`: a word fits no form that the words before it fit. `Range`: a number is outside the range of its slot.
#[tactic(auto, unfolding(crate::specs::Fitting::form_of))]
pub fn form_of(version: u8, first: FirstWord, words: &[Word]) -> Result<Form, TextWhy>
    ensures { result ≡ form_of version first words.now }
{
    let mut best = None;
    for form in forms(version, first) {
        best = held(words, best, *form);
    }
    verdict(words, best)
}

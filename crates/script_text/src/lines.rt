//! Cutting a text into lines, and a line into words.
ghost use Rattle.std.specs.Prelude.{◌≡◌, ℕ, ◌≤◌, ◌<◌, ◌==◌, [], ◌∷◌, IfSome, IfNone, IfOk, length};
ghost use Rattle.std.specs.List.{position_or_len, slice_split};
ghost use Rattle.script_text.specs.Reading.{says, words_in};

use script_forms::Word;
use std::alloc::Global;
use usb_base::Memory;

/// Where `byte` first stands, or the length where it doesn't.
#[tactic(auto, using(std::proofs::lemmas::List::Sums::position_or_len_is))]
fn first_of(text: &[u8], byte: u8) -> usize
    ensures place { result ≡ position_or_len (λ b. b == byte) text.now }
    ensures within { result ≤ length text.now }
{
    for (at, b) in text.iter().enumerate() {
        if *b == byte {
            return at;
        }
    }
    text.len()
}

/// What stands before the first `byte`, and what stands behind it, if it is there.
#[tactic(auto, using(crate::proofs::Cuts::cut_none, crate::proofs::Cuts::cut_some, std::proofs::lemmas::List::take_rest))]
pub fn cut(text: &[u8], byte: u8) -> (&[u8], Option<&[u8]>)
    ensures more { IfSome result.1 (λ rest. slice_split (λ b. b == byte) text.now ≡ result.0.now ∷ slice_split (λ b. b == byte) rest.now) }
    ensures last { IfNone result.1 (slice_split (λ b. b == byte) text.now ≡ result.0.now ∷ []) }
    ensures shorter { IfSome result.1 (λ rest. length rest.now < length text.now) }
{
    let at = first_of(text, byte);
    if at == text.len() {
        return (text, None);
    }
    (&text[..at], Some(&text[at + 1..]))
}

/// Whether a line says something: it isn't empty and doesn't begin with `#`.
pub fn says(line: &[u8]) -> bool
    ensures { result ≡ says line.now }
{
    match line.first() {
        None => false,
        Some(b) => *b != b'#',
    }
}

/// The words of a line.
pub fn words_in(alloc: Global, line: &[u8]) -> Result<Vec<Word<'_>>, Memory>
    ensures { IfOk result (λ words. words.items ≡ words_in line.now) }
{
    let mut words = Vec::new(alloc);
    let mut rest = line;
    'words: loop {
        let (word, behind) = cut(rest, b' ');
        match words.push(Word::of(word)) {
            Ok(()) => {}
            Err(_) => return Err(Memory),
        }
        match behind {
            None => return Ok(words),
            Some(behind) => rest = behind,
        }
    }
}

//! Reading bytes of two hexadecimal digits.
ghost use Rattle.std.specs.Prelude.{◌≡◌, ℕ, [], IfOk, unwrap_or, is_some};
ghost use Rattle.script_forms.specs.Syntax.{nibble, byte_of, pairs, hex_of, is_setup};

use std::alloc::Global;
use usb_base::{ListOf, Memory};

/// The value of a digit 0 to 9 or a to f.
fn nibble(digit: u8) -> Option<u8>
    ensures { result ≡ nibble digit }
{
    match digit {
        b'a'..=b'f' => Some(digit - 87),
        b'0'..=b'9' => Some(digit - 48),
        _ => None,
    }
}

/// The byte of its high and its low digit.
fn byte(high: u8, low: u8) -> Option<u8>
    ensures { result ≡ byte_of (nibble high) (nibble low) }
{
    let high = nibble(high)?;
    let low = nibble(low)?;
    Some(high * 16 + low)
}

/// Whether a text is pairs of digits.
#[tactic(auto, using(crate::proofs::Pairs::pairs_more, crate::proofs::Pairs::pairs_odd, crate::proofs::Pairs::pairs_end))]
fn are_pairs(word: &[u8]) -> bool
    ensures { result ≡ is_some (pairs word.now) }
{
    let mut at = 0;
    while at < word.len() {
        if at + 1 == word.len() {
            return false;
        }
        if byte(word[at], word[at + 1]).is_none() {
            return false;
        }
        at += 2;
    }
    true
}

/// Whether a word spells bytes, two digits each, or `-` for none.
#[tactic(auto, unfolding(crate::specs::Syntax::hex_of))]
pub fn is_hex(word: &[u8]) -> bool
    ensures { result ≡ is_some (hex_of word.now) }
{
    match word {
        [] => false,
        [dash] => *dash == b'-',
        _ => are_pairs(word),
    }
}

/// Whether a word spells eight bytes.
pub fn is_setup(word: &[u8]) -> bool
    ensures { result ≡ is_setup word.now }
{
    word.len() == 16 && is_hex(word)
}

/// The bytes of pairs of digits; none where the text is something else.
#[tactic(auto, using(crate::proofs::Pairs::pairs_more, crate::proofs::Pairs::pairs_odd, crate::proofs::Pairs::pairs_end))]
fn pair_bytes(alloc: Global, word: &[u8]) -> Result<ListOf<u8>, Memory>
    ensures { IfOk result (λ bytes. bytes ≡ unwrap_or (pairs word.now) []) }
{
    let mut bytes = Vec::with_capacity(alloc, word.len() / 2)?;
    let mut at = 0;
    while at < word.len() {
        if at + 1 == word.len() {
            return Ok(ListOf::of(Vec::new(alloc)));
        }
        let Some(byte) = byte(word[at], word[at + 1]) else {
            return Ok(ListOf::of(Vec::new(alloc)));
        };
        match bytes.push(byte) {
            Ok(()) => {}
            Err(_) => return Err(Memory),
        }
        at += 2;
    }
    Ok(ListOf::of(bytes))
}

/// The bytes that a word spells as two digits each, or as `-`; none where it is no such word.
#[tactic(auto, unfolding(crate::specs::Syntax::hex_of))]
pub fn hex_bytes(alloc: Global, word: &[u8]) -> Result<ListOf<u8>, Memory>
    ensures { IfOk result (λ bytes. bytes ≡ unwrap_or (hex_of word.now) []) }
{
    if word.len() < 2 {
        return Ok(ListOf::of(Vec::new(alloc)));
    }
    pair_bytes(alloc, word)
}

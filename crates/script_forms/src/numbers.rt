//! Reading decimal numbers.
ghost use Rattle.std.specs.Prelude.{◌≡◌, ℕ, ◌<◌, ◌⊎◌, ◌↔◌, IsTrue, IfSome, IfNone, slice_index, length};
ghost use Rattle.std.specs.Fmt.{decimal};
ghost use Rattle.script_forms.specs.Syntax.{number_of};

/// The number that a word spells in decimal digits, without a sign or a leading zero; `None` for any other word.
#[tactic(auto, using(crate::proofs::Decimals::spelled_number, crate::proofs::Decimals::spells_none))]
pub fn number_of(word: &[u8]) -> Option<u32>
    ensures { result ≡ number_of word.now }
{
    match parsed(word) {
        Some(n) => Some(n),
        None => None,
    }
}

/// The number that a word spells.
fn parsed(word: &[u8]) -> Option<u32>
    ensures some { IfSome result (λ n. word.now ≡ decimal n) }
    ensures small { IfSome result (λ n. n < 4294967296) }
    ensures none { IfNone result ((n : ℕ) → n < 4294967296 → word.now ≡ decimal n → ⊥) }
{
    if has_zero_or_plus(word) {
        return None;
    }
    let Ok(text) = str::from_utf8(word) else {
        return None;
    };
    match text.parse::<u32>() {
        Ok(n) => Some(n),
        Err(_) => None,
    }
}

/// Whether a word begins with a plus, or with a zero that isn't all of it.
fn has_zero_or_plus(word: &[u8]) -> bool
    ensures { IsTrue result ↔ ((slice_index word.now 0 ≡ 43) ⊎ ((slice_index word.now 0 ≡ 48) × (1 < length word.now))) }
{
    match word.first() {
        None => false,
        Some(b) => *b == b'+' || *b == b'0' && word.len() > 1,
    }
}

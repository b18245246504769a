//! Bits of a list of words of 64 bits.
ghost use Rattle.std.specs.Prelude.{◌≡◌, ℕ, ◌+◌, ◌*◌, ◌/◌, ◌≤◌, ◌<◌, ◌^◌, nat_eq, length, IfSome, IfNone, if◌then◌else◌};
ghost use Rattle.std.specs.Int.{bit_at};
ghost use Rattle.drv_endpoints.specs.Working.{bit_of, IsFirst, IsLowest, IsWritten, AreNone};

/// The first bit of a word that is set, from bit `from` on.
fn first_in(word: u64, from: u32) -> Option<u32>
    requires { from < 64 }
    ensures first { IfSome result (λ i. IsLowest word from i) }
    ensures within { IfSome result (λ i. i < 64) }
    ensures none { IfNone result ((k : ℕ) → from ≤ k → bit_at word k ≡ 0) }
{
    let rest = word >> from;
    if rest == 0 {
        return None;
    }
    Some(from + rest.trailing_zeros())
}

/// The first bit that is set, from the word with the number `from` on.
fn first_from_word(words: &[u64], from: usize) -> Option<usize>
    requires from { from ≤ length words.now }
    requires few { length words.now ≤ 2 ^ 58 }
    ensures first { IfSome result (λ e. IsFirst words.now (64 * from) e) }
    ensures none { IfNone result (AreNone words.now (64 * from)) }
{
    for word in from..words.len() {
        if let Some(bit) = first_in(words[word], 0) {
            return Some(64 * word + bit as usize);
        }
    }
    None
}

/// The first bit that is set, from bit `from` on.
pub fn first_bit(words: &[u64], from: usize) -> Option<usize>
    requires { length words.now ≤ 2 ^ 58 }
    ensures first { IfSome result (λ e. IsFirst words.now from e) }
    ensures none { IfNone result (AreNone words.now from) }
{
    let word = from / 64;
    if word >= words.len() {
        return None;
    }
    match first_in(words[word], (from % 64) as u32) {
        Some(bit) => Some(64 * word + bit as usize),
        None => first_from_word(words, word + 1),
    }
}

/// A word whose bit `e % 64` is set or cleared.
fn with_bit(word: u64, e: usize, set: bool) -> u64
    ensures { IsWritten word result e (if set then 1 else 0) }
{
    if set {
        return word | 1 << (e % 64);
    }
    word & !(1 << (e % 64))
}

/// Bit `e` is set or cleared.
pub fn write_bit(words: &mut Vec<u64>, e: usize, set: bool)
    requires { e / 64 < length words.old.items }
    ensures bits { (k : ℕ) → bit_of words.new.items k ≡ (if nat_eq k e then (if set then 1 else 0) else bit_of words.old.items k) }
    ensures len { length words.new.items ≡ length words.old.items }
{
    let word = with_bit(words[e / 64], e, set);
    words[e / 64] = word;
}

ghost use Rattle.std.specs.Prelude.{◌≡◌, ◌≤◌, ◌<◌, ◌+◌, ◌-◌};
ghost use Rattle.link_words.specs.Layout.{bits, is_set, high_bits, first_bit};

/// Bits `high` to `low` of a word, as a number.
#[inline]
#[tactic(auto, using(crate::proofs::Bits::gap_is))]
pub fn field(word: u32, high: u8, low: u8) -> u32
    requires ordered { low ≤ high }
    requires in_word { high < 32 }
    ensures { result ≡ bits high low word }
{
    (word >> low) & (u32::MAX >> (31 - (high - low)))
}

/// Whether a bit of a word is 1.
#[inline]
pub fn bit(word: u32, place: u8) -> bool
    requires { place < 32 }
    ensures { result ≡ is_set place word }
{
    (word >> place) & 1 == 1
}

/// Bits 31 to 5 of a word, as they stand: a byte address that is a multiple of 32.
#[inline]
pub fn address(word: u32) -> u32
    ensures { result ≡ high_bits 5 word }
{
    word & 0xFFFF_FFE0
}

/// The lowest bit of a word that is 1, from bit `low` up to bit `high`.
#[inline]
pub fn first_set(word: u32, high: u8, low: u8) -> Option<u8>
    requires ordered { low ≤ high }
    requires in_word { high < 32 }
    ensures { result ≡ first_bit (λ k. is_set k word) low (high + 1 - low) }
{
    let gap = field(word, high, low);
    if gap == 0 {
        return None;
    }
    Some(low + gap.trailing_zeros() as u8)
}

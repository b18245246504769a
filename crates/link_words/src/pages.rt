ghost use Rattle.std.specs.Prelude.{◌≡◌, ◌<◌, ◌^◌};
ghost use Rattle.link_words.specs.Layout.{first_bad_bit, ranges_of, word_of};
ghost use Rattle.link_words.specs.Fields.{page_rows};

use crate::word_bits::first_set;

/// The first reserved bit that is 1 in a word with the number of a page alone, bits 31 to 12 (EHCI 1.0, 3.5.4).
#[inline]
#[tactic(auto, unfolding(crate::specs::Layout::first_bad_bit))]
pub fn page_bad_bit(word: u32) -> Option<u8>
    ensures { result ≡ first_bad_bit (ranges_of (page_rows (λ page. page))) word }
{
    first_set(word, 11, 0)
}

/// The word with the number of a page alone.
#[inline]
pub fn page_word(page: u32) -> u32
    requires { page < 2 ^ 20 }
    ensures { result ≡ word_of (page_rows (λ page. page)) page }
{
    page << 12
}

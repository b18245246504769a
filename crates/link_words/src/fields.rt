ghost use Rattle.std.specs.Prelude.{◌≡◌, ◌<◌, ◌%◌};

use crate::word_bits::{address, bit, field, first_set};

/// A link field (EHCI 1.0, 3.3.1): the three fields of a word that leads to a structure of any type.
#[derive(Clone, Copy, PartialEq, Eq, Debug)]
pub struct LinkBits {
    /// T, the list ends here: bit 0.
    pub t: bool,
    /// Typ, the type of the structure: bits 2 to 1. 0 is an iTD, 1 a queue head, 2 a siTD, 3 an FSTN.
    pub typ: u8,
    /// The byte address, a multiple of 32: bits 31 to 5.
    pub address: u32,
}

/// A short link field (EHCI 1.0, 3.5.1): the two fields of a word that leads to a structure of one type.
#[derive(Clone, Copy, PartialEq, Eq, Debug)]
pub struct ShortLink {
    /// T, the list ends here: bit 0.
    pub t: bool,
    /// The byte address, a multiple of 32: bits 31 to 5.
    pub address: u32,
}

impl LinkBits {
    ghost use Rattle.link_words.specs.Layout.{word_of, IsWordInRange, first_bad_bit, ranges_of};
    ghost use Rattle.link_words.specs.Fields.{link_rows, link_at};

    /// The fields of a word, whatever its reserved bits hold.
    #[inline]
    pub fn from_word(word: u32) -> LinkBits
        ensures { result ≡ link_at word }
    {
        LinkBits {
            t: bit(word, 0),
            typ: field(word, 2, 1) as u8,
            address: address(word),
        }
    }

    /// The first reserved bit of a word that is 1.
    #[tactic(auto, unfolding(crate::specs::Layout::first_bad_bit))]
    #[inline]
    pub fn bad_bit(word: u32) -> Option<u8>
        ensures { result ≡ first_bad_bit (ranges_of link_rows) word }
    {
        first_set(word, 4, 3)
    }

    /// The word of the fields.
    #[tactic(auto, using(std::proofs::lemmas::Grind::common_steps, crate::proofs::Shifts::parts))]
    #[inline]
    pub fn to_word(&self) -> u32
        requires { IsWordInRange link_rows self.now }
        ensures { result ≡ word_of link_rows self.now }
    {
        self.t as u32 | (self.typ as u32) << 1 | self.address
    }
}

impl ShortLink {
    ghost use Rattle.link_words.specs.Layout.{word_of, IsWordInRange, first_bad_bit, ranges_of};
    ghost use Rattle.link_words.specs.Fields.{short_link_rows, short_link_at};

    /// The fields of a word, whatever its reserved bits hold.
    #[inline]
    pub fn from_word(word: u32) -> ShortLink
        ensures { result ≡ short_link_at word }
    {
        ShortLink {
            t: bit(word, 0),
            address: address(word),
        }
    }

    /// The first reserved bit of a word that is 1.
    #[tactic(auto, unfolding(crate::specs::Layout::first_bad_bit))]
    #[inline]
    pub fn bad_bit(word: u32) -> Option<u8>
        ensures { result ≡ first_bad_bit (ranges_of short_link_rows) word }
    {
        first_set(word, 4, 1)
    }

    /// The word of the fields.
    #[tactic(auto, using(std::proofs::lemmas::Grind::common_steps, crate::proofs::Shifts::parts))]
    #[inline]
    pub fn to_word(&self) -> u32
        requires { IsWordInRange short_link_rows self.now }
        ensures { result ≡ word_of short_link_rows self.now }
    {
        self.t as u32 | self.address
    }
}

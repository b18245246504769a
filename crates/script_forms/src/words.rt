//! A word of a line.
ghost use Rattle.std.specs.Prelude.{◌≡◌, ℕ, List, slice_index_or, []};

use std::marker::Model;

/// A word of a line, which contracts see as the list of its bytes.
#[derive(Drop)]
pub struct Word<'a> {
    bytes: &'a [u8],
}

impl<'a> Model for Word<'a> {
    ghost Value = { List ℕ };

    ghost view = { λ w. w.bytes.now };
}

impl<'a> Word<'a> {
    /// The word of these bytes.
    pub fn of(bytes: &'a [u8]) -> Word<'a>
        ensures { result ≡ bytes.now }
    {
        Word { bytes }
    }

    /// Its bytes.
    pub fn bytes(&self) -> &[u8]
        ensures { result.now ≡ self.now }
    {
        self.bytes
    }
}

/// The bytes of the word at a place, or none behind the last word.
pub fn word_at<'w>(words: &'w [Word], at: usize) -> &'w [u8]
    ensures { result.now ≡ slice_index_or words.now at [] }
{
    match words.get(at) {
        Some(word) => word.bytes(),
        None => &[],
    }
}

/// The first reserved bit that is set in the words of a structure, by word and then by bit. For a field with a
/// reserved value it is the field's lowest bit.
#[derive(Clone, Copy, PartialEq, Eq, Debug)]
pub struct Bad {
    /// The word of the structure, from 0.
    pub word: u8,
    /// The bit of that word, 0 to 31.
    pub bit: u8,
}

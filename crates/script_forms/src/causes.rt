/// Why a line of a script is refused, in the order in which a line's causes are looked for.
#[derive(Clone, Copy, Debug, PartialEq, Eq)]
pub enum TextWhy {
    /// The line has over 65,535 bytes, or the text over 1,048,576.
    Long,
    /// It has a byte that no line may have.
    Byte,
    /// It is the first line, and names no version of the language.
    Version,
    /// Its first word is unknown, or a word stands where another must, or spaces are amiss.
    Word,
    /// It tells of the world after an action, or of the memory after anything else of the world.
    Late,
    /// No line with its first word has this number of words.
    Count,
    /// A word is no number.
    Number,
    /// A word is no hexadecimal text, or none of eight bytes where setup data must stand.
    Hex,
    /// A value is outside its range.
    Range,
    /// An endpoint, device, hub or port isn't declared.
    Unknown,
    /// It was declared, attached or fated before.
    Twice,
    /// The line passes a limit of a whole script.
    Limit,
}

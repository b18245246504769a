ghost use Rattle.std.specs.Prelude.{◌≡◌};
ghost use Rattle.word_mem.specs.Memory.{word_at};
ghost use Rattle.word_mem.specs.Views.{byte_at};

use word_mem::WordMem;

/// The word at the byte address `at`, and 0 past the last word.
pub(crate) fn word_or_zero(mem: &WordMem, at: u32) -> u32
    ensures { result ≡ word_at mem.now at }
{
    if at / 4 < mem.words() {
        mem.word(at - at % 4)
    } else {
        0
    }
}

/// The byte at a byte address.
pub(crate) fn byte_of_memory(mem: &WordMem, at: u32) -> u8
    ensures { result ≡ byte_at mem.now at }
{
    let word = word_or_zero(mem, at);
    match at % 4 {
        0 => (word & 0xff) as u8,
        1 => ((word >> 8) & 0xff) as u8,
        2 => ((word >> 16) & 0xff) as u8,
        _ => (word >> 24) as u8,
    }
}

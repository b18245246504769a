use std::alloc::{AllocError, Global};

/// A script that opens nothing.
pub const SCRIPT: &[u8] = b"ehci 1\nmem 2048\n";

/// What `dump` shows of its image.
pub const SHOWN: &[u8] =
    b"frindex 0000 list 00000000 async 00001000 words 2048\nasync\n  qh 00001000 0.0 high max 64 s 00 c 00 token 00000040\n  ring\n";

/// The word at a place of an image with an empty frame list at 0 and the head of an empty ring at 1000h.
pub fn opening_word(place: u32) -> u32 {
    match place {
        0..=0x3ff | 0x404 | 0x405 => 1,
        0x400 => 0x1002,
        0x401 => 0x40_a000,
        0x402 => 0x4000_0000,
        0x406 => 0x40,
        _ => 0,
    }
}

/// The byte at an offset of that image, of so many words.
pub fn opening_byte(words: u32, offset: u32) -> u8 {
    let field = match offset / 4 {
        0 => 0x4943_4845,
        1 => 1,
        2 | 3 => 0,
        4 => 0x1000,
        5 => words,
        place => opening_word(place - 6),
    };
    field.to_le_bytes()[(offset % 4) as usize]
}

/// The bytes of that image of 2,048 words, which is that of the script.
pub fn opening(alloc: Global) -> Result<Vec<u8>, AllocError> {
    let mut bytes = Vec::new(alloc);
    for offset in 0..8216 {
        bytes.push(opening_byte(2048, offset))?;
    }
    Ok(bytes)
}

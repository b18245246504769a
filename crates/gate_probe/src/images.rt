ghost use Rattle.std.specs.Prelude.{◌≡◌, length};

use crate::cases::{Case, Fill};
use std::alloc::{AllocError, Global};

/// How many words each image has: two pages.
const WORDS: u32 = 2048;

/// Where the ring of each image is entered.
pub const RING: u32 = 0x1000;

/// Sets a word by its byte address, where it lies inside.
fn set(words: &mut [u32], at: u32, word: u32)
    ensures { length words.new ≡ length words.old }
{
    if let Some(place) = words.get_mut((at / 4) as usize) {
        *place = word;
    }
}

/// Writes an empty frame list at 0, the halted head of a ring at 1000h, and at 1040h a queue head of bulk endpoint 1 of the high-speed
/// device 3 that has the qTD at 1080h next and leads to the head.
fn write_lists(words: &mut [u32]) {
    for frame in 0..1024 {
        set(words, 4 * frame, 1);
    }
    for (at, word) in [
        (RING, 0x1042),
        (0x1004, 0x0040_a000),
        (0x1008, 0x4000_0000),
        (0x1010, 1),
        (0x1014, 1),
        (0x1018, 0x40),
        (0x1040, 0x1002),
        (0x1044, 0x0200_2103),
        (0x1048, 0x4000_0000),
        (0x1050, 0x1080),
        (0x1054, 1),
        (0x1080, 1),
        (0x1084, 1),
        (0x108c, 0x1000),
    ] {
        set(words, at, word);
    }
}

/// Writes a chain of isochronous descriptors from 1100h on, each with 1,024 bytes to receive in microframe 1.
fn write_descriptors(words: &mut [u32], count: u32) {
    set(words, 0, 0x1100);
    for descriptor in 0..count {
        let at = 0x1100 + 0x40 * (descriptor & 0x1f);
        let next = if descriptor + 1 < count { at + 0x40 } else { 1 };
        set(words, at, next);
        set(words, at + 8, 0x8400_0000);
        set(words, at + 0x24, 0x103);
        set(words, at + 0x28, 0x0c00);
        set(words, at + 0x2c, 1);
    }
}

/// The words of a case.
pub fn words_of(alloc: Global, case: &Case) -> Result<Vec<u32>, AllocError> {
    let every = match case.fill {
        Fill::Every(word) => word,
        Fill::Lists | Fill::Descriptors(_) => 0,
    };
    let mut words = vec![in alloc; every; WORDS as usize]?;
    match case.fill {
        Fill::Every(_) => {}
        Fill::Lists => write_lists(&mut words),
        Fill::Descriptors(count) => {
            write_lists(&mut words);
            write_descriptors(&mut words, count);
        }
    }
    for (at, word) in case.changes {
        set(&mut words, *at, *word);
    }
    Ok(words)
}

/// The bytes of the image of a case: version 1, microframe 0, its frame list, the ring, the number of its words, and the words.
pub fn bytes_of(alloc: Global, case: &Case, words: &[u32]) -> Result<Vec<u8>, AllocError> {
    let mut bytes = Vec::from_slice(alloc, b"EHCI")?;
    for field in [1, 0, case.list_base, RING, WORDS] {
        bytes.extend_from_slice(&field.to_le_bytes())?;
    }
    for word in words {
        bytes.extend_from_slice(&word.to_le_bytes())?;
    }
    Ok(bytes)
}

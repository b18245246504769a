ghost use Rattle.std.specs.Prelude.{◌≡◌, ◌≤◌, length};
ghost use Rattle.link_words.specs.Links.{IsAligned};

use crate::cases::{Case, Kind};
use link_words::Link;
use op_registers::Registers;
use std::alloc::Global;
use usb_base::Memory;
use word_mem::WordMem;

/// Where the structure of a case stands, and its qTD where it is a queue head.
pub(crate) const PLACE: u32 = 0x1000;

pub(crate) const QTD: u32 = 0x1080;

/// Sets a word by its byte address, where it lies inside.
fn set(words: &mut [u32], at: u32, word: u32)
    ensures { length words.new ≡ length words.old }
{
    if let Some(place) = words.get_mut((at / 4) as usize) {
        *place = word;
    }
}

/// Writes the structure of a case, its qTD, and two pages from 2000h on whose byte `i` is `i` mod 256.
fn fill(words: &mut [u32], case: &Case) {
    for (number, word) in case.words.iter().enumerate() {
        set(words, PLACE + 4 * (number % 32) as u32, *word);
    }
    for (number, word) in [1, 1, case.token, 0x2000, 0x3000, 0, 0, 0]
        .iter()
        .enumerate()
    {
        set(words, QTD + 4 * (number % 8) as u32, *word);
    }
    for place in 0..2048u32 {
        let byte = place % 64 * 4;
        set(
            words,
            0x2000 + 4 * place,
            byte | (byte + 1) << 8 | (byte + 2) << 16 | (byte + 3) << 24,
        );
    }
}

/// The memory of a case, all of it Lent.
///
/// # Errors
///
/// `Memory` where there is no room for the words.
pub(crate) fn memory(alloc: Global, case: &Case) -> Result<WordMem, Memory> {
    let mut words = vec![in alloc; 0u32; 4096]?;
    fill(&mut words, case);
    if words.len() != 4096 {
        return Err(Memory);
    }
    WordMem::from_words(alloc, &words)
}

/// Registers of a controller that runs with its periodic part enabled.
pub(crate) fn running() -> Registers {
    let mut regs = Registers::reset();
    regs.driver_write(0x00, 0x0008_0011);
    regs
}

/// The first link of the chain.
pub(crate) fn first(kind: Kind) -> Link
    ensures { IsAligned result }
{
    match kind {
        Kind::Queue => Link::Qh(PLACE),
        Kind::Itd => Link::Itd(PLACE),
        Kind::Sitd => Link::Sitd(PLACE),
    }
}

/// The word at a byte address, where it lies inside.
pub(crate) fn word(mem: &WordMem, at: u32) -> u32 {
    if at % 4 != 0 || at / 4 >= mem.words() {
        return 0;
    }
    mem.word(at)
}

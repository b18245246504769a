ghost use Rattle.std.specs.Prelude.{◌≡◌, ◌≤◌, length};

use crate::cases::Case;
use op_registers::Registers;
use std::alloc::Global;
use usb_base::Memory;
use word_mem::WordMem;

pub(crate) const HEAD: u32 = 0x1000;

pub(crate) const QUEUE: u32 = 0x1040;

pub(crate) const QTD: u32 = 0x1080;

/// Sets a word by its byte address, where it lies inside.
fn set(words: &mut [u32], at: u32, word: u32)
    ensures { length words.new ≡ length words.old }
{
    if let Some(place) = words.get_mut((at / 4) as usize) {
        *place = word;
    }
}

/// Writes a halted head, the queue head of a case and its qTD, and a buffer whose byte `i` is `i` mod 256 from 2000h on.
fn fill(words: &mut [u32], case: &Case) {
    for (at, word) in [
        (HEAD, QUEUE | 2),
        (HEAD + 4, 0x0040_a000),
        (HEAD + 8, 0x4000_0000),
        (HEAD + 16, 1),
        (HEAD + 20, 1),
        (HEAD + 24, 0x40),
        (QUEUE, HEAD | 2),
        (QUEUE + 4, case.characteristics),
        (QUEUE + 8, case.capabilities),
        (QUEUE + 16, QTD),
        (QUEUE + 20, 1),
        (QTD, 1),
        (QTD + 4, 1),
        (QTD + 8, case.token),
        (QTD + 12, case.buffer),
        (QTD + 16, 0x3000),
    ] {
        set(words, at, word);
    }
    for place in 0..512u32 {
        let byte = place % 64 * 4;
        set(
            words,
            0x2000 + 4 * place,
            byte | (byte + 1) << 8 | (byte + 2) << 16 | (byte + 3) << 24,
        );
    }
}

/// The memory of a case, all of it Lent.
///
/// # Errors
///
/// `Memory` where there is no room for the words.
pub(crate) fn memory(alloc: Global, case: &Case) -> Result<WordMem, Memory> {
    let mut words = vec![in alloc; 0u32; 4096]?;
    fill(&mut words, case);
    if words.len() != 4096 {
        return Err(Memory);
    }
    WordMem::from_words(alloc, &words)
}

/// Registers of a controller that runs with its asynchronous part enabled.
pub(crate) fn running() -> Registers {
    let mut regs = Registers::reset();
    regs.driver_write(0x18, HEAD);
    regs.driver_write(0x00, 0x0008_0021);
    regs
}

/// The word at a byte address, where it lies inside.
pub(crate) fn word(mem: &WordMem, at: u32) -> u32 {
    if at % 4 != 0 || at / 4 >= mem.words() {
        return 0;
    }
    mem.word(at)
}

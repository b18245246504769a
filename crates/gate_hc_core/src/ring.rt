ghost use Rattle.std.specs.Prelude.{◌≡◌, ◌≤◌, length};

use crate::cases::Case;
use op_registers::Registers;
use std::alloc::Global;
use usb_base::Memory;
use word_mem::WordMem;

const HEAD: u32 = 0x1000;

const QUEUE: u32 = 0x1040;

/// Sets a word by its byte address, where it lies inside.
fn set(words: &mut [u32], at: u32, word: u32)
    ensures { length words.new ≡ length words.old }
{
    if let Some(place) = words.get_mut((at / 4) as usize) {
        *place = word;
    }
}

/// Writes the frame list at 0, the head and the queue head.
fn fill(words: &mut [u32], case: &Case) {
    for frame in 0..1024 {
        set(words, 4 * frame, 1);
    }
    for (at, word) in [
        (0, case.element),
        (HEAD, case.link),
        (HEAD + 4, 0x0040_a000),
        (HEAD + 8, 0x4000_0000),
        (HEAD + 16, 1),
        (HEAD + 20, 1),
        (HEAD + 24, 0x40),
        (QUEUE, case.queue[0]),
        (QUEUE + 4, case.queue[1]),
        (QUEUE + 8, 0x4000_0000),
        (QUEUE + 16, 1),
        (QUEUE + 20, 1),
        (QUEUE + 24, case.queue[2]),
    ] {
        set(words, at, word);
    }
}

/// The memory of a case, all of it Lent.
///
/// # Errors
///
/// `Memory` where there is no room for the words.
pub(crate) fn memory(alloc: Global, case: &Case) -> Result<WordMem, Memory> {
    let mut words = vec![in alloc; 0u32; 2048]?;
    fill(&mut words, case);
    if words.len() != 2048 {
        return Err(Memory);
    }
    WordMem::from_words(alloc, &words)
}

/// Registers that are halted, over the ring.
pub(crate) fn halted() -> Registers {
    let mut regs = Registers::reset();
    regs.driver_write(0x18, HEAD);
    regs
}

ghost use Rattle.std.specs.Prelude.{◌≡◌, ◌≤◌, ◌<◌, ◌*◌, ◌%◌, IfSome};
ghost use Rattle.word_mem.specs.Memory.{AreAll};
ghost use Rattle.word_mem.specs.declared.blocks.BlockState.{BlockState};

use word_mem::{BlockRun, LentRun, WordMem};

/// Where the qTD stands behind the queue head.
pub(crate) const QTD: u32 = 0x40;

/// Where the buffer stands behind both.
pub(crate) const BUFFER: u32 = 0x80;

/// Writes a word of a run that the driver alone has.
fn put(mem: &mut WordMem, run: &BlockRun, offset: u32, word: u32)
    requires aligned { offset % 4 ≡ 0 }
    requires inside { offset < 192 }
    requires six { run.now.blocks ≡ 6 }
    requires kept { AreAll mem.old BlockState.Kept run.now }
    ensures kept { AreAll mem.new BlockState.Kept run.now }
{
    mem.kept_write(run, 32 * run.first() + offset, word);
}

/// Writes a queue head that is the whole ring, and a qTD that asks for 64 bytes (EHCI 1.0, 3.5 and 3.6).
fn write(mem: &mut WordMem, run: &BlockRun)
    requires six { run.now.blocks ≡ 6 }
    requires kept { AreAll mem.old BlockState.Kept run.now }
    ensures kept { AreAll mem.new BlockState.Kept run.now }
{
    let base = 32 * run.first();
    put(mem, run, 0x00, base | 2); // the link: to itself, a queue head
    put(mem, run, 0x04, 0x0200_a103); // device 3, endpoint 1, high speed, H, packets of 512
    put(mem, run, 0x08, 0x4000_0000); // one transaction a microframe
    put(mem, run, 0x10, base + QTD); // the next qTD
    put(mem, run, 0x14, 1); // no alternate one
    put(mem, run, QTD, 1); // the last qTD
    put(mem, run, QTD + 4, 1);
    put(mem, run, QTD + 8, 0x0040_8d80); // 64 bytes, IN, three errors, active
    put(mem, run, QTD + 12, base + BUFFER);
}

/// Takes and lends the frame list, all of whose words are 0, and a ring.
pub(crate) fn lend(mem: &mut WordMem) -> Option<LentRun>
    ensures { IfSome result (λ ring. (ring.blocks ≡ 6) × AreAll mem.new BlockState.Lent ring) }
{
    let frames = mem.take(128)?;
    let _list = mem.lend(frames);
    let ring = mem.take(6)?;
    write(mem, &ring);
    Some(mem.lend(ring))
}

/// A word of the ring, which the driver shares with the controller.
pub(crate) fn word(mem: &WordMem, ring: &LentRun, offset: u32) -> u32
    requires aligned { offset % 4 ≡ 0 }
    requires inside { offset < 192 }
    requires six { ring.now.blocks ≡ 6 }
    requires lent { AreAll mem.now BlockState.Lent ring.now }
{
    mem.shared_read(ring, 32 * ring.first() + offset)
}

ghost use Rattle.std.specs.Prelude.{◌≡◌, ◌<◌, ◌≤◌, ◌%◌, length, IfOk};

use crate::line::{Kind, Load};
use op_registers::Registers;
use std::alloc::Global;
use usb_base::Memory;
use word_mem::WordMem;

/// The queue heads whose structures stand in one page.
const GROUP: u32 = 32;

/// The frame list, five pages of a buffer for each of 32 queue heads, and a page for the structures of each 32 queue heads.
const WORDS: usize = 169 * 1024;

/// The byte address of the first page of the structures.
const STRUCTURES: u32 = 161 * 4096;

/// Where the qTDs begin in a page of structures. The queue heads stand before them, 64 bytes each.
const QTDS: u32 = 2112;

/// Memory with a ring or a chain of queue heads, each with one qTD that is its own next.
#[derive(Drop)]
pub(crate) struct Ring {
    pub(crate) mem: WordMem,
    load: Load,
}

/// The token of a qTD that is active: 20,480 bytes, and an interrupt when it is done.
fn active(kind: Kind) -> u32 {
    match kind {
        Kind::In | Kind::Interrupt => 0x5000_8d80,
        Kind::Out => 0x5000_8c80,
        Kind::Control => 0x5000_8e80,
    }
}

/// The byte address of a queue head.
fn queue_at(queue: u32) -> u32
    requires { queue < 256 }
    ensures aligned { result % 32 ≡ 0 }
{
    STRUCTURES + 4096 * (queue / GROUP) + 64 + 64 * (queue % GROUP)
}

/// The byte address of its qTD.
fn qtd_at(queue: u32) -> u32
    requires { queue < 256 }
    ensures aligned { result % 32 ≡ 0 }
{
    STRUCTURES + 4096 * (queue / GROUP) + QTDS + 32 * (queue % GROUP)
}

/// Sets words from a byte address on, where they lie inside.
fn set(words: &mut [u32], at: u32, new: &[u32])
    requires { length new.now ≤ 12 }
    ensures { length words.new ≡ length words.old }
{
    for (place, word) in new.iter().enumerate() {
        if let Some(old) = words.get_mut((at / 4) as usize + place) {
            *old = *word;
        }
    }
}

/// Whether the queue heads stand in the chain of each frame.
fn periodic(load: &Load) -> bool {
    load.kind == Kind::Interrupt
}

/// The link word that ends the queue heads: to the head of the ring, or to nothing.
fn last(load: &Load) -> u32 {
    if periodic(load) {
        return 1;
    }
    STRUCTURES | 2
}

/// The masks and the number of transactions of a microframe.
fn capabilities(load: &Load) -> u32 {
    if periodic(load) {
        return 0x4000_00ff;
    }
    0x4000_0000
}

/// How many NAKs a queue head counts.
fn reload(load: &Load, queue: u32) -> u32 {
    if periodic(load) {
        return 0;
    }
    queue % 2 * 4
}

/// Writes a queue head whose overlay is done: of a device of its own, endpoint 1 (0 for control), with RL 0 or 4 and as many NAKs left.
fn set_queue(words: &mut [u32], load: &Load, queue: u32)
    requires { queue < 256 }
    ensures { length words.new ≡ length words.old }
{
    let next = if queue + 1 < load.queues && queue < 255 {
        queue_at(queue + 1) | 2
    } else {
        last(load)
    };
    let endpoint = match load.kind {
        Kind::In | Kind::Out | Kind::Interrupt => 0x2100,
        Kind::Control => 0x6000,
    };
    let rl = reload(load, queue);
    let characteristics = rl << 28 | (load.size as u32) << 16 | endpoint | (queue % 127 + 1);
    set(
        words,
        queue_at(queue),
        &[
            next,
            characteristics,
            capabilities(load),
            0,
            qtd_at(queue),
            rl << 1 | 1,
        ],
    );
}

/// Writes an active qTD that is its own next, with a buffer of five pages.
fn set_qtd(words: &mut [u32], load: &Load, queue: u32)
    requires { queue < 256 }
    ensures { length words.new ≡ length words.old }
{
    let page = 1 + 5 * (queue % GROUP);
    let own = qtd_at(queue);
    set(
        words,
        own,
        &[
            own,
            1,
            active(load.kind),
            page << 12,
            (page + 1) << 12,
            (page + 2) << 12,
            (page + 3) << 12,
            (page + 4) << 12,
        ],
    );
}

/// The words of a memory, all 0.
fn blank(alloc: Global) -> Result<Vec<u32>, Memory> {
    Ok(vec![in alloc; 0u32; WORDS]?)
}

/// Where each element of the frame list leads: to the first queue head, or nowhere.
fn element(load: &Load) -> u32 {
    if periodic(load) && load.queues > 0 {
        return queue_at(0) | 2;
    }
    1
}

/// Where the head of the ring leads: to the first queue head, or to itself.
fn behind(load: &Load) -> u32 {
    if periodic(load) {
        return STRUCTURES | 2;
    }
    queue_at(0) | 2
}

/// Writes the frame list, the head of the ring, which is halted, and each queue head with its qTD.
fn fill(words: &mut [u32], load: &Load) {
    for frame in 0..1024 {
        set(words, 4 * frame, &[element(load)]);
    }
    let head = [behind(load), 0x0040_a000, 0x4000_0000, 0, 1, 1, 0x40];
    set(words, STRUCTURES, &head);
    for queue in 0..u32::min(load.queues, 256) {
        set_queue(words, load, queue);
        set_qtd(words, load, queue);
    }
}

/// Memory with these words, all of its blocks Lent.
fn lend(alloc: Global, words: &[u32]) -> Result<WordMem, Memory> {
    if words.len() < 1024 || words.len() > 262_144 || words.len() % 1024 != 0 {
        return Err(Memory);
    }
    WordMem::from_words(alloc, words)
}

impl Ring {
    /// A ring of this load.
    ///
    /// # Errors
    ///
    /// `Memory` where the words find no room.
    pub(crate) fn build(alloc: Global, load: Load) -> Result<Ring, Memory> {
        let mut words = blank(alloc)?;
        fill(&mut words, &load);
        Ok(Ring {
            mem: lend(alloc, &words)?,
            load,
        })
    }

    /// Registers of a controller that runs with both of its parts on, over this ring; with the periodic part alone where all queue heads
    /// are in the chains of the frames.
    pub(crate) fn running(&self) -> Registers {
        let mut regs = Registers::reset();
        regs.driver_write(0x18, STRUCTURES);
        let parts = match self.load.kind {
            Kind::In | Kind::Out | Kind::Control => 0x30,
            Kind::Interrupt => 0x10,
        };
        regs.driver_write(0x00, 0x0008_0001 | parts);
        regs
    }

    /// Makes the qTD of a queue head active again where it is done.
    fn refill(&mut self, queue: u32)
        requires { queue < 256 }
    {
        let at = qtd_at(queue) + 8;
        if let Some(token) = self.mem.hc_read(at) {
            if token & 0x80 == 0 {
                self.mem.hc_write(at, active(self.load.kind));
            }
        }
    }

    /// The driver's part: where an interrupt was raised it is cleared, and the qTDs that are done are made active again.
    pub(crate) fn serve(&mut self, regs: &mut Registers) {
        if regs.driver_read(0x04).unwrap_or(0) & 1 == 0 {
            return;
        }
        regs.driver_write(0x04, 1);
        for queue in 0..u32::min(self.load.queues, 256) {
            self.refill(queue);
        }
    }
}

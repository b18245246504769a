//! New descriptors of an isochronous endpoint (EHCI 1.0, 3.3, 3.4, 4.7 and 4.12.3).
ghost use Rattle.std.specs.Prelude.{◌≡◌, ◌≤◌, ◌<◌, ◌+◌, ◌-◌, ◌*◌, ◌%◌, drop, length, vec_len, vec_capacity};
ghost use Rattle.mem_runs.specs.Book.{holding, Stands};
ghost use Rattle.drv_periodic_table.specs.Descriptors.{slot_limit};
ghost use Rattle.drv_table.specs.IsoOffers.{all_descriptors, one_descriptor, descriptor_transfer, total_of};
ghost use Rattle.drv_frames_content.specs.Part.{with_notes};
ghost use Rattle.drv_frames.specs.Listing.{listed_in};

use crate::spans::blocks_from;
use drv_frames_content::PeriodicPart;
use drv_iso::{run_count, total_bytes};
use drv_table::{Part, Slots, Sort, Transfer};
use mem_runs::RunBook;
use usb_base::EpDesc;
use word_mem::WordMem;

/// The transfer of the descriptor in this block.
fn transfer_of(e: usize, slots: &Slots, block: u16) -> Transfer
    requires slot { slots.now.slot ≤ slot_limit slots.now.split }
    ensures { result ≡ descriptor_transfer e slots.now block }
{
    Transfer {
        endpoint: e,
        sort: Sort::Descriptor,
        first: block,
        qtds: 0,
        place: block,
        left: 0,
        most: total_bytes(slots) as u32,
        reported: false,
        released: false,
        part: Part::Own,
    }
}

/// The first byte of the next descriptor, where that of one of `total` bytes is `seed`.
fn next_seed(seed: u8, total: u16) -> u8
    ensures { result ≡ (seed + total) % 256 }
{
    ((seed as u32 + total as u32) % 256) as u8
}

/// One descriptor is noted, written and listed: these runs are its own, then those of its buffer.
fn write_one(
    book: &RunBook,
    mem: &mut WordMem,
    periodic: &mut PeriodicPart,
    transfers: &mut Vec<Transfer>,
    e: usize,
    desc: &EpDesc,
    slots: &Slots,
    seed: u8,
    runs: &[u16],
)
    requires slot { slots.now.slot ≤ slot_limit slots.now.split }
    requires max { desc.now.max ≤ 1024 }
    requires some { 1 ≤ desc.now.multi }
    requires multi { desc.now.multi ≤ 3 }
    requires port { desc.now.port ≤ 127 }
    requires room { vec_len transfers.old < vec_capacity transfers.old }
    requires stands { Stands (holding book.now mem.old) }
    ensures written { listed_in periodic.new transfers.new.items mem.new ≡ one_descriptor book.now e desc.now slots.now seed runs.now (listed_in periodic.old transfers.old.items mem.old) }
    ensures rest { periodic.new ≡ with_notes periodic.old periodic.new.periodic.notes }
    ensures len { vec_len transfers.new ≡ vec_len transfers.old + 1 }
    ensures capacity { vec_capacity transfers.new ≡ vec_capacity transfers.old }
    ensures stands { Stands (holding book.now mem.new) }
{
    let block = periodic.write(book, mem, desc, slots, seed, runs);
    transfers.push_reserved(transfer_of(e, slots, block));
}

/// `count` descriptors are noted, written and listed, from the first of these runs on: each takes its own, then those of its buffer. What an
/// OUT sends counts up from the byte `seed`, from one to the next.
pub fn write_descriptors(
    book: &RunBook,
    mem: &mut WordMem,
    periodic: &mut PeriodicPart,
    transfers: &mut Vec<Transfer>,
    e: usize,
    desc: &EpDesc,
    slots: &Slots,
    count: u8,
    seed: u8,
    runs: &[u16],
)
    requires slot { slots.now.slot ≤ slot_limit slots.now.split }
    requires max { desc.now.max ≤ 1024 }
    requires some { 1 ≤ desc.now.multi }
    requires multi { desc.now.multi ≤ 3 }
    requires port { desc.now.port ≤ 127 }
    requires room { vec_len transfers.old + count ≤ vec_capacity transfers.old }
    requires stands { Stands (holding book.now mem.old) }
    ensures written { listed_in periodic.new transfers.new.items mem.new ≡ all_descriptors book.now e desc.now slots.now count seed runs.now (listed_in periodic.old transfers.old.items mem.old) }
    ensures rest { periodic.new ≡ with_notes periodic.old periodic.new.periodic.notes }
    ensures len { vec_len transfers.new ≡ vec_len transfers.old + count }
    ensures capacity { vec_capacity transfers.new ≡ vec_capacity transfers.old }
    ensures stands { Stands (holding book.now mem.new) }
{
    let total = total_bytes(slots);
    let each = 1 + run_count(total) as usize;
    let mut first_byte = seed;
    for k in 0..count {
        let own = blocks_from(runs, each * k as usize);
        write_one(
            book, mem, periodic, transfers, e, desc, slots, first_byte, own,
        );
        first_byte = next_seed(first_byte, total);
    }
}

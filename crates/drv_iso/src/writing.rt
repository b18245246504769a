ghost use Rattle.std.specs.Prelude.{◌≡◌, ◌≤◌, ◌<◌, ◌+◌, ◌*◌, ◌/◌, ◌^◌, ℕ, nat_lt, length, take, drop, replicate, slice_index, slice_set, ◌++◌, ◌∷◌, [], if◌then◌else◌};
ghost use Rattle.mem_runs.specs.Book.{holding, Stands, store_words};
ghost use Rattle.drv_table.specs.Words.{pieces, buffer_needs};
ghost use Rattle.drv_table.specs.IsoOffers.{descriptor_note, written_descriptor, total_of, slot_runs};
ghost use Rattle.drv_periodic_table.specs.Descriptors.{seeded_byte, seeded_word, write_seeded, slot_limit, descriptor_words};

use crate::descriptors::{address_in, new_itd};
use crate::slots::{sends_to_host, total_bytes};
use crate::splits::new_sitd;
use drv_periodic_table::DescriptorNote;
use drv_table::Slots;
use mem_runs::RunBook;
use usb_base::EpDesc;
use word_mem::WordMem;

/// How many runs a buffer of `long` bytes has.
#[tactic(auto, using(std::proofs::lemmas::Grind::common_steps, crate::proofs::Noting::count_runs))]
pub fn run_count(long: u16) -> u8
    requires { long ≤ 24576 }
    ensures count { result ≡ length (buffer_needs long) }
    ensures few { result ≤ 6 }
{
    if long == 0 {
        return 0;
    }
    if long <= 4096 {
        return 1;
    }
    ((long + 4095) / 4096) as u8
}

/// The block at place `i` of `count` from place `from` on, and 0 past them.
fn one_of(runs: &[u16], from: usize, count: u8, i: usize) -> u16
    requires from { from < 2 ^ 32 }
    requires few { i < 6 }
    ensures { result ≡ (if nat_lt i count then slice_index runs.now (from + i) else 0) }
{
    if i < count as usize {
        return block_at(runs, from + i);
    }
    0
}

/// The block at this place, and 0 past the last.
pub(crate) fn block_at(blocks: &[u16], i: usize) -> u16
    ensures { result ≡ slice_index blocks.now i }
{
    match blocks.get(i) {
        Some(block) => *block,
        None => 0,
    }
}

/// What is known of a new descriptor, the runs of whose buffer stand from place `from` on.
fn note_of_runs(slots: &Slots, runs: &[u16], from: usize) -> DescriptorNote
    requires slot { slots.now.slot ≤ slot_limit slots.now.split }
    requires from { from < 2 ^ 32 }
    ensures { result ≡ descriptor_note slots.now (drop from runs.now) }
{
    let count = run_count(total_bytes(slots));
    DescriptorNote {
        frame: 0,
        split: slots.split,
        smask: slots.smask,
        cmask: slots.cmask,
        slot: slots.slot,
        buffer: [
            one_of(runs, from, count, 0),
            one_of(runs, from, count, 1),
            one_of(runs, from, count, 2),
            one_of(runs, from, count, 3),
            one_of(runs, from, count, 4),
            one_of(runs, from, count, 5),
        ],
        runs: count,
    }
}

/// The byte at place `i` of `total` bytes that count up from `seed`, and 0 past them.
fn byte_of_seed(seed: u8, total: u16, i: u16) -> u8
    ensures { result ≡ seeded_byte seed total i }
{
    if i < total {
        return ((seed as u32 + i as u32) % 256) as u8;
    }
    0
}

/// Four of these bytes as a word, the first of them at place `i` and lowest.
fn word_of_seed(seed: u8, total: u16, i: u16) -> u32
    requires { i ≤ 24576 }
    ensures { result ≡ seeded_word seed total i }
{
    u32::from_le_bytes([
        byte_of_seed(seed, total, i),
        byte_of_seed(seed, total, i + 1),
        byte_of_seed(seed, total, i + 2),
        byte_of_seed(seed, total, i + 3),
    ])
}

/// Writes these bytes into a buffer: whole words, 0 past the end.
#[tactic(auto, using(std::proofs::lemmas::Grind::common_steps, crate::proofs::Seeding::seeded_next, crate::proofs::Seeding::seeded_all))]
fn write_seed(book: &RunBook, mem: &mut WordMem, buffer: &[u16; 6], seed: u8, total: u16)
    requires total { total ≤ 24576 }
    requires stands { Stands (holding book.now mem.old) }
    ensures memory { mem.new ≡ write_seeded book.now mem.old buffer.now seed total 0 (pieces total 4) }
    ensures stands { Stands (holding book.now mem.new) }
{
    for word in 0..(total + 3) / 4 {
        let i = 4 * word;
        let value = word_of_seed(seed, total, i);
        book.store(
            mem,
            block_at(buffer, (i / 4096) as usize),
            address_in(buffer, i as u32),
            value,
        );
    }
}

/// Writes the words of the descriptor in this block.
fn store_descriptor(
    book: &RunBook,
    mem: &mut WordMem,
    desc: &EpDesc,
    note: &DescriptorNote,
    block: u16,
)
    requires slot { note.now.slot ≤ slot_limit note.now.split }
    requires max { desc.now.max ≤ 1024 }
    requires some { 1 ≤ desc.now.multi }
    requires multi { desc.now.multi ≤ 3 }
    requires port { desc.now.port ≤ 127 }
    requires stands { Stands (holding book.now mem.old) }
    ensures memory { mem.new ≡ store_words book.now mem.old block (32 * block) (descriptor_words desc.now note.now) }
    ensures stands { Stands (holding book.now mem.new) }
{
    if note.split {
        let words = new_sitd(desc, note).write();
        book.store_words(mem, block, 32 * block as u32, &words);
        return;
    }
    let words = new_itd(desc, note).write();
    book.store_words(mem, block, 32 * block as u32, &words);
}

/// Writes the words of the descriptor in this block, and of an OUT the bytes from `seed` on.
fn write_words(
    book: &RunBook,
    mem: &mut WordMem,
    desc: &EpDesc,
    note: &DescriptorNote,
    block: u16,
    seed: u8,
    total: u16,
)
    requires slot { note.now.slot ≤ slot_limit note.now.split }
    requires max { desc.now.max ≤ 1024 }
    requires some { 1 ≤ desc.now.multi }
    requires multi { desc.now.multi ≤ 3 }
    requires port { desc.now.port ≤ 127 }
    requires total { total ≤ 24576 }
    requires stands { Stands (holding book.now mem.old) }
    ensures memory { mem.new ≡ written_descriptor book.now mem.old desc.now note.now block seed total }
    ensures stands { Stands (holding book.now mem.new) }
{
    store_descriptor(book, mem, desc, note, block);
    if !sends_to_host(desc.name.way) {
        write_seed(book, mem, &note.buffer, seed, total);
    }
}

/// Notes and writes a new descriptor: its block is the first of these runs that were taken, and those of its buffer stand right behind. It
/// tells the block.
pub fn write_descriptor(
    book: &RunBook,
    mem: &mut WordMem,
    notes: &mut [DescriptorNote],
    desc: &EpDesc,
    slots: &Slots,
    seed: u8,
    runs: &[u16],
) -> u16
    requires slot { slots.now.slot ≤ slot_limit slots.now.split }
    requires max { desc.now.max ≤ 1024 }
    requires some { 1 ≤ desc.now.multi }
    requires multi { desc.now.multi ≤ 3 }
    requires port { desc.now.port ≤ 127 }
    requires stands { Stands (holding book.now mem.old) }
    ensures block { result ≡ slice_index runs.now 0 }
    ensures notes { notes.new ≡ slice_set notes.old result (descriptor_note slots.now (drop 1 runs.now)) }
    ensures memory { mem.new ≡ written_descriptor book.now mem.old desc.now (descriptor_note slots.now (drop 1 runs.now)) result seed (total_of slots.now) }
    ensures stands { Stands (holding book.now mem.new) }
{
    let block = block_at(runs, 0);
    let note = note_of_runs(slots, runs, 1);
    if (block as usize) < notes.len() {
        notes[block as usize] = note;
    }
    write_words(book, mem, desc, &note, block, seed, total_bytes(slots));
    block
}

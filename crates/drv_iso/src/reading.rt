ghost use Rattle.std.specs.Prelude.{◌≡◌, ◌≤◌, ◌<◌, ◌+◌, ◌-◌, ◌*◌, ◌++◌, map, take, length, vec_len, vec_capacity, if◌then◌else◌};
ghost use Rattle.drv_table.specs.Harvesting.{descriptor_found};
ghost use Rattle.drv_periodic_table.specs.Descriptors.{slot_in, itd_is_active, itd_errors, has_error, moved_in, bytes_from, slot_told, told_from, split_told, told_bytes};
ghost use Rattle.drv_iso.specs.Found.{itd_found};

use crate::descriptors::address_in;
use crate::slots::{count_before, has_bit};
use crate::splits::{moved_of_sitd, sitd_found};
use crate::words::{byte_of_memory, word_or_zero};
use drv_periodic_table::DescriptorNote;
use drv_table::Found;
use itd_sitd::ItdSlot;
use word_mem::WordMem;

/// The slot of a microframe of the iTD in this block, as it stands.
fn slot_of_memory(mem: &WordMem, block: u16, u: u8) -> ItdSlot
    requires { u ≤ 7 }
    ensures { result ≡ slot_in mem.now block u }
{
    ItdSlot::from_word(word_or_zero(mem, 32 * block as u32 + 4 + 4 * u as u32))
}

fn fails(slot: &ItdSlot) -> bool
    ensures { result ≡ has_error slot.now }
{
    slot.xact_err || slot.babble || slot.buffer_error
}

/// Whether a slot is active.
fn is_active_at(mem: &WordMem, block: u16, u: u8) -> bool
    requires { u ≤ 7 }
    ensures { result ≡ (slot_in mem.now block u).active }
{
    slot_of_memory(mem, block, u).active
}

/// One where a slot has an error bit.
fn error_at(mem: &WordMem, block: u16, u: u8) -> u8
    requires { u ≤ 7 }
    ensures { result ≡ (if has_error (slot_in mem.now block u) then 1 else 0) }
{
    if fails(&slot_of_memory(mem, block, u)) {
        1
    } else {
        0
    }
}

/// Whether no slot of the iTD in this block is active, and how many have an error bit.
fn itd_found(mem: &WordMem, block: u16) -> Found
    ensures { result ≡ itd_found mem.now block }
{
    if is_active_at(mem, block, 0)
        || is_active_at(mem, block, 1)
        || is_active_at(mem, block, 2)
        || is_active_at(mem, block, 3)
        || is_active_at(mem, block, 4)
        || is_active_at(mem, block, 5)
        || is_active_at(mem, block, 6)
        || is_active_at(mem, block, 7)
    {
        return Found::Active;
    }
    Found::Served(
        error_at(mem, block, 0)
            + error_at(mem, block, 1)
            + error_at(mem, block, 2)
            + error_at(mem, block, 3)
            + error_at(mem, block, 4)
            + error_at(mem, block, 5)
            + error_at(mem, block, 6)
            + error_at(mem, block, 7),
    )
}

/// Whether no slot of the descriptor in this block is active, and how many have an error bit; a siTD is one slot.
pub fn descriptor_found(mem: &WordMem, note: &DescriptorNote, block: u16) -> Found
    ensures { result ≡ descriptor_found note.now mem.now block }
{
    if note.split {
        return sitd_found(mem, block);
    }
    itd_found(mem, block)
}

/// How many bytes a slot tells: none where it tells more than it has.
fn moved_bytes(slot: u16, length: u16) -> u16
    ensures moved { result ≡ moved_in slot length }
    ensures within { result ≤ slot }
{
    if length <= slot { length } else { 0 }
}

/// Appends `n` bytes of a buffer from byte `from` on.
#[tactic(auto, using(std::proofs::lemmas::Grind::common_steps, crate::proofs::Telling::bytes_more, crate::proofs::Telling::bytes_none))]
fn append_bytes(store: &mut Vec<u8>, mem: &WordMem, buffer: &[u16; 6], from: u32, n: u16)
    requires room { vec_len store.old + n ≤ vec_capacity store.old }
    requires few { from ≤ 1048576 }
    ensures items { store.new.items ≡ store.old.items ++ bytes_from mem.now buffer.now from n }
    ensures len { vec_len store.new ≡ vec_len store.old + n }
    ensures capacity { vec_capacity store.new ≡ vec_capacity store.old }
{
    for i in 0..n {
        let at = address_in(buffer, from + i as u32);
        store.push_reserved(byte_of_memory(mem, at));
    }
}

/// Appends the bytes that were moved in the slot of a microframe, but at most `most`, and tells how many of these are left.
#[tactic(auto, using(std::proofs::lemmas::Grind::common_steps, crate::proofs::Telling::slot_none, crate::proofs::Telling::slot_taken))]
fn append_slot(
    store: &mut Vec<u8>,
    mem: &WordMem,
    note: &DescriptorNote,
    block: u16,
    u: u8,
    most: u32,
) -> u32
    requires within { u ≤ 7 }
    requires room { vec_len store.old + most ≤ vec_capacity store.old }
    ensures items { store.new.items ≡ store.old.items ++ take most (slot_told note.now mem.now block u) }
    ensures left { result ≡ most - length (slot_told note.now mem.now block u) }
    ensures len { vec_len store.new + result ≤ vec_len store.old + most }
    ensures capacity { vec_capacity store.new ≡ vec_capacity store.old }
{
    if !has_bit(note.smask, u) {
        return most;
    }
    let moved = moved_bytes(note.slot, slot_of_memory(mem, block, u).length);
    let from = count_before(note.smask, u) as u32 * note.slot as u32;
    let n = most.min(moved as u32);
    append_bytes(store, mem, &note.buffer, from, n as u16);
    most - n
}

/// Appends the bytes that were moved in the slots of the iTD in this block, but at most `most`.
#[tactic(auto, using(std::proofs::lemmas::Grind::common_steps, crate::proofs::Telling::told_more, crate::proofs::Telling::told_none))]
fn append_slots(store: &mut Vec<u8>, mem: &WordMem, note: &DescriptorNote, block: u16, most: u32)
    requires { vec_len store.old + most ≤ vec_capacity store.old }
    ensures items { store.new.items ≡ store.old.items ++ take most (told_from note.now mem.now block 0 8) }
    ensures len { vec_len store.new ≤ vec_len store.old + most }
    ensures capacity { vec_capacity store.new ≡ vec_capacity store.old }
{
    let mut left = most;
    for u in 0..8 {
        left = append_slot(store, mem, note, block, u, left);
    }
}

/// Appends the bytes that were moved by the siTD in this block, but at most `most`.
fn append_split(store: &mut Vec<u8>, mem: &WordMem, note: &DescriptorNote, block: u16, most: u32)
    requires { vec_len store.old + most ≤ vec_capacity store.old }
    ensures items { store.new.items ≡ store.old.items ++ take most (split_told note.now mem.now block) }
    ensures len { vec_len store.new ≤ vec_len store.old + most }
    ensures capacity { vec_capacity store.new ≡ vec_capacity store.old }
{
    let n = most.min(moved_of_sitd(mem, block, note.slot) as u32);
    append_bytes(store, mem, &note.buffer, 0, n as u16);
}

/// Appends the bytes that were moved in the slots of the descriptor in this block, but at most `most`.
pub fn append_told(store: &mut Vec<u8>, mem: &WordMem, note: &DescriptorNote, block: u16, most: u32)
    requires { vec_len store.old + most ≤ vec_capacity store.old }
    ensures items { store.new.items ≡ store.old.items ++ take most (told_bytes note.now mem.now block) }
    ensures len { vec_len store.new ≤ vec_len store.old + most }
    ensures capacity { vec_capacity store.new ≡ vec_capacity store.old }
{
    if note.split {
        append_split(store, mem, note, block, most);
        return;
    }
    append_slots(store, mem, note, block, most);
}

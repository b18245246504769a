//! The bytes of buffers.
ghost use Rattle.std.specs.Prelude.{◌≡◌, ◌≤◌, ◌<◌, ◌+◌, ◌*◌, ◌^◌, ℕ, take, ◌++◌, vec_len, vec_capacity};
ghost use Rattle.drv_table.specs.Harvests.{buffer_address, buffer_bytes, moved_bytes, note_at};
ghost use Rattle.word_mem.specs.Views.{byte_at};

use crate::tokens::{note_of, word_or_zero};
use drv_table::QtdNote;
use word_mem::WordMem;

/// The byte at a byte address.
fn byte_of_memory(mem: &WordMem, at: u32) -> u8
    ensures { result ≡ byte_at mem.now at }
{
    let word = word_or_zero(mem, at);
    match at % 4 {
        0 => (word & 0xff) as u8,
        1 => ((word >> 8) & 0xff) as u8,
        2 => ((word >> 16) & 0xff) as u8,
        _ => (word >> 24) as u8,
    }
}

/// Where byte `j` of a buffer stands.
fn address_in(note: &QtdNote, j: u16) -> u32
    ensures address { result ≡ buffer_address note.now j }
    ensures bound { result < 2 ^ 22 }
{
    let place = (j / 4096) as usize;
    let block = match note.buffer.get(place) {
        Some(block) => *block,
        None => 0,
    };
    32 * block as u32 + j as u32 % 4096
}

/// Appends the first `n` bytes of a buffer.
#[tactic(auto, using(std::proofs::lemmas::Grind::common_steps, crate::proofs::Moved::buffer_more, crate::proofs::Moved::buffer_none))]
pub fn append_buffer(store: &mut Vec<u8>, mem: &WordMem, note: &QtdNote, n: u16)
    requires { vec_len store.old + n ≤ vec_capacity store.old }
    ensures items { store.new.items ≡ store.old.items ++ buffer_bytes mem.now note.now n }
    ensures len { vec_len store.new ≡ vec_len store.old + n }
    ensures capacity { vec_capacity store.new ≡ vec_capacity store.old }
{
    for j in 0..n {
        let at = address_in(note, j);
        store.push_reserved(byte_of_memory(mem, at));
    }
}

/// Appends the bytes that were moved in `count` qTDs from the block `first` on, but at most `most`.
#[tactic(auto, using(std::proofs::lemmas::Grind::common_steps, crate::proofs::Moved::moved_more, crate::proofs::Moved::moved_none))]
pub fn append_moved(
    store: &mut Vec<u8>,
    mem: &WordMem,
    notes: &[QtdNote],
    first: u16,
    count: u16,
    most: u32,
)
    requires { vec_len store.old + most ≤ vec_capacity store.old }
    ensures items { store.new.items ≡ store.old.items ++ take most (moved_bytes notes.now mem.now first count) }
    ensures len { vec_len store.new ≤ vec_len store.old + most }
    ensures capacity { vec_capacity store.new ≡ vec_capacity store.old }
{
    let mut block = first;
    let mut left = most;
    for _qtd in 0..count {
        let note = note_of(notes, block);
        let n = left.min(note.moved as u32);
        append_buffer(store, mem, &note, n as u16);
        left -= n;
        block = note.next;
    }
}

ghost use Rattle.std.specs.Prelude.{◌≡◌, ◌≤◌, ◌<◌, ◌+◌, ◌*◌, ◌/◌, ◌^◌, length, take, drop, ◌++◌, slice_index};
ghost use Rattle.usb_base.specs.Limits.{longest_qtd};
ghost use Rattle.mem_runs.specs.Book.{holding, Stands};
ghost use Rattle.drv_table.specs.Harvests.{note_at, buffer_address};
ghost use Rattle.drv_table.specs.Words.{pieces};
ghost use Rattle.drv_table.specs.Offers.{word_from, write_bytes, send_stages, sends};
ghost use Rattle.drv_words.specs.Cuts.{stages_of, IsCut};

use crate::notes::note_in;
use drv_table::{QtdNote, Stage};
use drv_words::Cut;
use mem_runs::RunBook;
use word_mem::WordMem;

/// Writes the bytes that a transfer sends into the buffers of its qTDs, the first of which stands in the block `block`: `front`, and then
/// `bytes`.
#[tactic(auto, using(std::proofs::lemmas::Grind::common_steps, crate::proofs::Sent::sent_next, crate::proofs::Sent::sent_all))]
pub(crate) fn send_bytes(
    book: &RunBook,
    mem: &mut WordMem,
    notes: &[QtdNote],
    cut: &Cut,
    block: u16,
    front: &[u8],
    bytes: &[u8],
)
    requires cut { IsCut cut.now }
    requires front { length front.now ≤ 8 }
    requires stands { Stands (holding book.now mem.old) }
    ensures memory { mem.new ≡ send_stages book.now mem.old notes.now (stages_of cut.now) block (front.now ++ bytes.now) }
    ensures stands { Stands (holding book.now mem.new) }
{
    let mut at = block;
    let mut from = 0;
    for k in 0..cut.count() {
        let stage = cut.stage(k);
        let note = note_in(notes, at);
        let count = sent_by(&stage);
        write_buffer(book, mem, &note, front, bytes, from, count);
        from += count as usize;
        at = note.next;
    }
}

/// How many bytes the qTD of a stage sends.
fn sent_by(stage: &Stage) -> u16
    ensures { result ≡ sends stage.now }
{
    if stage.pid == 1 {
        return 0;
    }
    stage.long
}

/// Writes `count` bytes into the buffer of a qTD, from place `from` of `front` and `bytes` on: whole words, 0 past the end.
#[tactic(auto, using(std::proofs::lemmas::Grind::common_steps, crate::proofs::Sent::written_next, crate::proofs::Sent::written_all))]
fn write_buffer(
    book: &RunBook,
    mem: &mut WordMem,
    note: &QtdNote,
    front: &[u8],
    bytes: &[u8],
    from: usize,
    count: u16,
)
    requires front { length front.now ≤ 8 }
    requires from { from < 2 ^ 32 }
    requires few { count ≤ longest_qtd }
    requires stands { Stands (holding book.now mem.old) }
    ensures memory { mem.new ≡ write_bytes book.now mem.old note.now (take count (drop from (front.now ++ bytes.now))) 0 (pieces count 4) }
    ensures stands { Stands (holding book.now mem.new) }
{
    for word in 0..(count + 3) / 4 {
        let i = 4 * word;
        let value = word_at(front, bytes, from, count, i);
        book.store(mem, buffer_block(note, i), buffer_byte(note, i), value);
    }
}

/// The block in which the run with byte `i` of a buffer begins.
fn buffer_block(note: &QtdNote, i: u16) -> u16
    ensures { result ≡ slice_index note.now.buffer (i / 4096) }
{
    match note.buffer.get((i / 4096) as usize) {
        Some(block) => *block,
        None => 0,
    }
}

/// Where byte `i` of a buffer stands.
fn buffer_byte(note: &QtdNote, i: u16) -> u32
    ensures { result ≡ buffer_address note.now i }
{
    32 * buffer_block(note, i) as u32 + (i % 4096) as u32
}

/// Four of `count` bytes from place `from` on as a word, the first of them at place `i` and lowest.
fn word_at(front: &[u8], bytes: &[u8], from: usize, count: u16, i: u16) -> u32
    requires front { length front.now ≤ 8 }
    requires from { from < 2 ^ 32 }
    requires within { i ≤ longest_qtd }
    ensures { result ≡ word_from (take count (drop from (front.now ++ bytes.now))) i }
{
    u32::from_le_bytes([
        byte_at(front, bytes, from, count, i),
        byte_at(front, bytes, from, count, i + 1),
        byte_at(front, bytes, from, count, i + 2),
        byte_at(front, bytes, from, count, i + 3),
    ])
}

/// The byte at place `i` of `count` bytes from place `from` on, and 0 past them.
#[tactic(auto, using(std::proofs::lemmas::Grind::common_steps, crate::proofs::Sent::byte_past, crate::proofs::Sent::byte_in_front, crate::proofs::Sent::byte_behind))]
fn byte_at(front: &[u8], bytes: &[u8], from: usize, count: u16, i: u16) -> u8
    requires front { length front.now ≤ 8 }
    requires from { from < 2 ^ 32 }
    ensures { result ≡ slice_index (take count (drop from (front.now ++ bytes.now))) i }
{
    if i >= count {
        return 0;
    }
    let place = from + i as usize;
    if place < front.len() {
        return front[place];
    }
    byte_or_none(bytes, place - front.len())
}

/// The byte at this place, and 0 past the last.
fn byte_or_none(bytes: &[u8], i: usize) -> u8
    ensures { result ≡ slice_index bytes.now i }
{
    match bytes.get(i) {
        Some(byte) => *byte,
        None => 0,
    }
}

ghost use Rattle.std.specs.Prelude.{◌≡◌, ◌≤◌, ◌-◌, ◌*◌, ◌++◌, length, take, drop, slice_index, nat_eq};
ghost use Rattle.mem_runs.specs.Book.{holding, Stands, store_words};
ghost use Rattle.qh_qtd.specs.Qtd.{qtd_words};
ghost use Rattle.drv_table.specs.Words.{dummy_qtd};
ghost use Rattle.drv_table.specs.Harvests.{note_at};
ghost use Rattle.drv_table.specs.Offers.{stage_words, note_stages, write_stages, send_stages, first_of};
ghost use Rattle.drv_words.specs.Cuts.{stages_of, IsCut};

use crate::bytes::send_bytes;
use crate::notes::{block_at, note_in, note_transfer};
use crate::stages::{first_words, write_others};
use drv_table::QtdNote;
use drv_words::{Cut, inactive_qtd};
use mem_runs::RunBook;
use word_mem::WordMem;

/// A transfer whose qTDs are written but the first.
#[derive(Clone, Copy, Debug)]
pub struct Queued {
    /// How many qTDs it has.
    pub qtds: u16,
    /// The block of the new dummy.
    pub dummy: u16,
    /// The words of its first qTD, which takes the place of the old dummy.
    pub words: [u32; 8],
}

/// Notes and writes a transfer whose runs were taken after the first `keep` of those in the book: all of its qTDs but the first, which is
/// the old dummy in the block `first`, the new dummy, and the bytes that it sends, `front` and then `bytes`.
pub fn write_transfer(
    book: &RunBook,
    mem: &mut WordMem,
    notes: &mut [QtdNote],
    cut: &Cut,
    first: u16,
    keep: usize,
    front: &[u8],
    bytes: &[u8],
) -> Queued
    requires cut { IsCut cut.now }
    requires front { length front.now ≤ 8 }
    requires stands { Stands (holding book.now mem.old) }
    ensures qtds { result.qtds ≡ length (stages_of cut.now) }
    ensures dummy { result.dummy ≡ slice_index (take (length (stages_of cut.now)) (drop keep book.now.taken)) (length (stages_of cut.now) - 1) }
    ensures notes { notes.new ≡ note_stages notes.old (stages_of cut.now) first
        (take (length (stages_of cut.now)) (drop keep book.now.taken)) (drop (length (stages_of cut.now)) (drop keep book.now.taken)) }
    ensures words { result.words ≡ stage_words notes.new (first_of (stages_of cut.now)) first result.dummy (nat_eq (length (stages_of cut.now)) 1) }
    ensures memory { mem.new ≡ send_stages book.now
        (store_words book.now (write_stages book.now mem.old notes.new result.dummy (drop 1 (stages_of cut.now)) (note_at notes.new first).next) result.dummy (32 * result.dummy) (qtd_words dummy_qtd))
        notes.new (stages_of cut.now) first (front.now ++ bytes.now) }
    ensures stands { Stands (holding book.now mem.new) }
{
    let count = cut.count();
    let runs = from_place(book.taken(), keep);
    let qtds = up_to(runs, count as usize);
    let dummy = block_at(qtds, (count - 1) as usize);
    note_transfer(notes, cut, first, qtds, from_place(runs, count as usize));
    write_others(book, mem, notes, cut, dummy, note_in(notes, first).next);
    let last = inactive_qtd().write();
    book.store_words(mem, dummy, 32 * dummy as u32, &last);
    send_bytes(book, mem, notes, cut, first, front, bytes);
    Queued {
        qtds: count,
        dummy,
        words: first_words(notes, cut, dummy, first),
    }
}

/// These blocks from place `from` on.
fn from_place(blocks: &[u16], from: usize) -> &[u16]
    ensures { result.now ≡ drop from blocks.now }
{
    if from >= blocks.len() {
        return &[];
    }
    &blocks[from..]
}

/// The first `count` of these blocks.
fn up_to(blocks: &[u16], count: usize) -> &[u16]
    ensures { result.now ≡ take count blocks.now }
{
    if count >= blocks.len() {
        return blocks;
    }
    &blocks[..count]
}

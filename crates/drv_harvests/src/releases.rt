//! Blocks that are given back.
ghost use Rattle.std.specs.Prelude.{◌≡◌, ◌≤◌, ◌+◌, ◌*◌, ℕ, if◌then◌else◌};
ghost use Rattle.mem_runs.specs.Book.{holding, Stands};
ghost use Rattle.drv_table.specs.Releases.{free_runs, free_qtd, free_qtds, free_transfers, is_held_of};
ghost use Rattle.drv_table.specs.Harvests.{note_at};

use crate::tokens::note_of;
use drv_table::{QtdNote, Transfer};
use mem_runs::RunBook;
use word_mem::WordMem;

/// Gives back the runs that begin in these blocks.
#[tactic(auto, using(std::proofs::lemmas::Grind::common_steps, crate::proofs::Freed::runs_more, crate::proofs::Freed::runs_all))]
pub fn free_runs_at(book: &mut RunBook, mem: &mut WordMem, blocks: &[u16])
    requires { Stands (holding book.old mem.old) }
    ensures freed { holding book.new mem.new ≡ free_runs (holding book.old mem.old) blocks.now }
    ensures stands { Stands (holding book.new mem.new) }
{
    for block in blocks {
        book.release(mem, *block);
    }
}

/// Gives back the blocks of a qTD and of its buffer.
fn free_one(book: &mut RunBook, mem: &mut WordMem, block: u16, note: &QtdNote)
    requires { Stands (holding book.old mem.old) }
    ensures freed { holding book.new mem.new ≡ free_qtd (holding book.old mem.old) block note.now }
    ensures stands { Stands (holding book.new mem.new) }
{
    book.release(mem, block);
    let runs = (note.runs as usize).min(5);
    free_runs_at(book, mem, &note.buffer[..runs]);
}

/// Gives back the blocks of `count` qTDs from this block on.
#[tactic(auto, using(std::proofs::lemmas::Grind::common_steps, crate::proofs::Freed::qtds_more, crate::proofs::Freed::qtds_all))]
pub fn free_qtds_from(
    book: &mut RunBook,
    notes: &[QtdNote],
    mem: &mut WordMem,
    first: u16,
    count: u16,
)
    requires { Stands (holding book.old mem.old) }
    ensures freed { holding book.new mem.new ≡ free_qtds notes.now (holding book.old mem.old) first count }
    ensures stands { Stands (holding book.new mem.new) }
{
    let mut block = first;
    for _qtd in 0..count {
        let note = note_of(notes, block);
        free_one(book, mem, block, &note);
        block = note.next;
    }
}

/// Gives back the blocks of each transfer of the endpoint that has some.
#[tactic(auto, using(std::proofs::lemmas::Grind::common_steps, crate::proofs::Freed::transfers_more, crate::proofs::Freed::transfers_all))]
pub fn free_transfers_of(
    book: &mut RunBook,
    notes: &[QtdNote],
    mem: &mut WordMem,
    e: usize,
    transfers: &[Transfer],
)
    requires { Stands (holding book.old mem.old) }
    ensures freed { holding book.new mem.new ≡ free_transfers notes.now e (holding book.old mem.old) transfers.now }
    ensures stands { Stands (holding book.new mem.new) }
{
    for transfer in transfers {
        free_if_held(book, notes, mem, e, transfer);
    }
}

/// Gives back the blocks of a transfer, if it is the endpoint's and has some.
fn free_if_held(
    book: &mut RunBook,
    notes: &[QtdNote],
    mem: &mut WordMem,
    e: usize,
    transfer: &Transfer,
)
    requires { Stands (holding book.old mem.old) }
    ensures freed { holding book.new mem.new ≡ (if is_held_of e transfer.now then free_qtds notes.now (holding book.old mem.old) transfer.now.first transfer.now.qtds else holding book.old mem.old) }
    ensures stands { Stands (holding book.new mem.new) }
{
    if transfer.endpoint != e || transfer.released {
        return;
    }
    free_qtds_from(book, notes, mem, transfer.first, transfer.qtds);
}

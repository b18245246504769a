ghost use Rattle.std.specs.Prelude.{◌≡◌, ◌≤◌, ◌/◌, ◌*◌, [], length, replicate, slice_set, Some};
ghost use Rattle.usb_base.specs.Limits.{frame_list_length};
ghost use Rattle.word_mem.specs.Runs.{Run};
ghost use Rattle.word_mem.specs.Memory.{fresh, with_states};
ghost use Rattle.word_mem.specs.Views.{with_words};
ghost use Rattle.word_mem.specs.Free.{lowest_run};
ghost use Rattle.word_mem.specs.declared.blocks.BlockState.TheVariants.{Lent};
ghost use Rattle.mem_runs.specs.Book.{holding, Stands, slot_of};
ghost use Rattle.mem_runs.specs.declared.slots.Slot.TheVariants.{Empty, Lends};
ghost use Rattle.drv_table.specs.Opening.{list_run, head_run, opening_book, opening_memory};

use drv_words::{HEAD_BLOCK, head_of_ring};
use mem_runs::RunBook;
use usb_base::limits::FRAME_LIST_LENGTH;
use word_mem::WordMem;

/// The blocks of a frame list, and those of a queue head (EHCI 1.0, 3.1 and 3.6).
const LIST_BLOCKS: u32 = 128;

const HEAD_BLOCKS: u32 = 2;

/// The frame list and the halted ring of one are taken from memory just built, lent, and written (EHCI 1.0, 4.1 and 4.8).
pub fn open_ring(book: &mut RunBook, mem: &mut WordMem)
    requires book { book.old ≡ record { slots = replicate (length mem.old.words / 8) Empty; taken = [] } }
    requires memory { mem.old ≡ fresh (length mem.old.words) }
    requires words { 2048 ≤ length mem.old.words }
    requires stands { Stands (holding book.old mem.old) }
    ensures book { book.new ≡ opening_book (length mem.old.words / 8) }
    ensures memory { mem.new ≡ opening_memory (length mem.old.words) }
    ensures stands { Stands (holding book.new mem.new) }
{
    lend_ring(book, mem);
    end_frames(book, mem, FRAME_LIST_LENGTH);
    let words = head_of_ring().write();
    book.store_words(mem, HEAD_BLOCK, 32 * HEAD_BLOCK as u32, &words);
}

/// The blocks of the frame list and of the head are taken and lent.
fn lend_ring(book: &mut RunBook, mem: &mut WordMem)
    requires book { book.old ≡ record { slots = replicate (length mem.old.words / 8) Empty; taken = [] } }
    requires memory { mem.old ≡ fresh (length mem.old.words) }
    requires words { 2048 ≤ length mem.old.words }
    requires stands { Stands (holding book.old mem.old) }
    ensures lent { holding book.new mem.new ≡ holding (opening_book (length mem.old.words / 8)) (with_states (with_states (fresh (length mem.old.words)) list_run Lent) head_run Lent) }
    ensures stands { Stands (holding book.new mem.new) }
{
    lend_lowest(book, mem, LIST_BLOCKS);
    lend_lowest(book, mem, HEAD_BLOCKS);
}

/// The lowest run of `n` Free blocks is taken and lent.
fn lend_lowest(book: &mut RunBook, mem: &mut WordMem, n: u32)
    requires at_least { 1 ≤ n }
    requires at_most { n ≤ 128 }
    requires none { book.old.taken ≡ [] }
    requires stands { Stands (holding book.old mem.old) }
    ensures lent { (r : Run) → lowest_run mem.old.states n ≡ Some r →
        holding book.new mem.new ≡ record { book = record { slots = slice_set book.old.slots r.first (Lends r); taken = [] }; memory = with_states mem.old r Lent } }
    ensures stands { Stands (holding book.new mem.new) }
{
    match book.take(mem, n) {
        Some(_) => book.lend_taken(mem),
        None => {}
    }
}

/// Each of these elements of the frame list ends its frame (EHCI 1.0, 3.3).
#[tactic(auto, using(std::proofs::lemmas::Grind::common_steps, crate::proofs::Opened::frame_next, crate::proofs::Opened::frames_done))]
fn end_frames(book: &RunBook, mem: &mut WordMem, frames: u32)
    requires few { frames ≤ frame_list_length }
    requires list { slot_of book.now.slots 0 ≡ Lends list_run }
    requires stands { Stands (holding book.now mem.old) }
    ensures memory { mem.new ≡ with_words mem.old 0 (replicate frames 1) }
    ensures stands { Stands (holding book.now mem.new) }
{
    for frame in 0..frames {
        book.store(mem, 0, 4 * frame, 1);
    }
}

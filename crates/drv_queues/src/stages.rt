ghost use Rattle.std.specs.Prelude.{◌≡◌, ◌≤◌, ◌<◌, length, drop, nat_eq};
ghost use Rattle.usb_base.specs.Limits.{longest_qtd};
ghost use Rattle.mem_runs.specs.Book.{holding, Stands};
ghost use Rattle.drv_table.specs.Harvests.{note_at};
ghost use Rattle.drv_table.specs.Offers.{stage_words, write_stages, first_of};
ghost use Rattle.drv_words.specs.Cuts.{stages_of, IsCut};

use crate::notes::note_in;
use drv_table::{QtdNote, Stage};
use drv_words::{Cut, qtd_of};
use mem_runs::RunBook;
use word_mem::WordMem;

/// Writes the qTDs of a transfer but the first, from the block `block` on; `dummy` is the new dummy.
#[tactic(auto, using(std::proofs::lemmas::Grind::common_steps, crate::proofs::Written::written_next, crate::proofs::Written::written_all))]
pub(crate) fn write_others(
    book: &RunBook,
    mem: &mut WordMem,
    notes: &[QtdNote],
    cut: &Cut,
    dummy: u16,
    block: u16,
)
    requires cut { IsCut cut.now }
    requires stands { Stands (holding book.now mem.old) }
    ensures memory { mem.new ≡ write_stages book.now mem.old notes.now dummy (drop 1 (stages_of cut.now)) block }
    ensures stands { Stands (holding book.now mem.new) }
{
    let mut at = block;
    for k in 1..cut.count() {
        let stage = cut.stage(k);
        let words = words_of(notes, &stage, at, dummy, k + 1 == cut.count());
        book.store_words(mem, at, 32 * at as u32, &words);
        at = note_in(notes, at).next;
    }
}

/// The words of the first qTD of a transfer, in the block `block`; `dummy` is the new dummy.
#[tactic(auto, using(std::proofs::lemmas::Grind::common_steps, crate::proofs::Written::first_here))]
pub(crate) fn first_words(notes: &[QtdNote], cut: &Cut, dummy: u16, block: u16) -> [u32; 8]
    requires cut { IsCut cut.now }
    ensures words { result ≡ stage_words notes.now (first_of (stages_of cut.now)) block dummy (nat_eq (length (stages_of cut.now)) 1) }
{
    let count = cut.count();
    let stage = cut.stage(0);
    words_of(notes, &stage, block, dummy, count == 1)
}

/// The words of the qTD of a stage in the block `block`, as it is noted.
fn words_of(notes: &[QtdNote], stage: &Stage, block: u16, dummy: u16, last: bool) -> [u32; 8]
    requires pid { stage.now.pid ≤ 2 }
    requires long { stage.now.long ≤ longest_qtd }
    ensures words { result ≡ stage_words notes.now stage.now block dummy last }
{
    let note = note_in(notes, block);
    qtd_of(stage, note.next, dummy, &note.buffer, last).write()
}

ghost use Rattle.std.specs.Prelude.{◌≡◌, ◌≤◌, ◌<◌, ◌+◌, ◌*◌, ◌^◌, length, drop, slice_index, nat_lt, slice_set, if◌then◌else◌};
ghost use Rattle.usb_base.specs.Limits.{longest_qtd};
ghost use Rattle.drv_table.specs.Words.{buffer_needs};
ghost use Rattle.drv_table.specs.Harvests.{note_at};
ghost use Rattle.drv_table.specs.Offers.{note_for, note_stages};
ghost use Rattle.drv_words.specs.Cuts.{stages_of, IsCut};

use drv_table::{QtdNote, Stage};
use drv_words::Cut;

/// Notes what is known of the qTDs of a transfer: the first in the block `first`, the others in `qtds`, whose last is the new dummy. Their
/// buffers begin in the blocks `runs`.
#[tactic(auto, using(std::proofs::lemmas::Grind::common_steps, crate::proofs::Noted::noted_next))]
pub(crate) fn note_transfer(
    notes: &mut [QtdNote],
    cut: &Cut,
    first: u16,
    qtds: &[u16],
    runs: &[u16],
)
    requires cut { IsCut cut.now }
    ensures notes { notes.new ≡ note_stages notes.old (stages_of cut.now) first qtds.now runs.now }
{
    let mut block = first;
    let mut from = 0;
    for k in 0..cut.count() {
        let stage = cut.stage(k);
        let next = block_at(qtds, k as usize);
        let note = note_of(&stage, next, runs, from);
        from += note.runs as usize;
        put_note(notes, block, note);
        block = next;
    }
}

/// What is known of the qTD of a new stage: the block of the qTD after it, and the runs of its buffer, which begin at place `from`.
fn note_of(stage: &Stage, next: u16, runs: &[u16], from: usize) -> QtdNote
    requires long { stage.now.long ≤ longest_qtd }
    requires from { from < 2 ^ 32 }
    ensures note { result ≡ note_for stage.now next (drop from runs.now) }
    ensures runs { result.runs ≤ 5 }
{
    let count = run_count(stage.long);
    QtdNote {
        next,
        buffer: [
            one_of(runs, from, count, 0),
            one_of(runs, from, count, 1),
            one_of(runs, from, count, 2),
            one_of(runs, from, count, 3),
            one_of(runs, from, count, 4),
        ],
        runs: count,
        told: stage.told,
        moved: 0,
    }
}

/// How many runs a buffer of `long` bytes has.
#[tactic(auto, using(std::proofs::lemmas::Grind::common_steps, crate::proofs::Noted::count_runs))]
fn run_count(long: u16) -> u8
    requires { long ≤ longest_qtd }
    ensures count { result ≡ length (buffer_needs long) }
    ensures few { result ≤ 5 }
{
    if long == 0 {
        return 0;
    }
    if long <= 4096 {
        return 1;
    }
    ((long + 4095) / 4096) as u8
}

/// The block at place `i` of `count` from place `from` on, and 0 past them.
fn one_of(runs: &[u16], from: usize, count: u8, i: usize) -> u16
    requires from { from < 2 ^ 32 }
    requires few { i < 5 }
    ensures { result ≡ (if nat_lt i count then slice_index runs.now (from + i) else 0) }
{
    if i < count as usize {
        return block_at(runs, from + i);
    }
    0
}

/// The block at this place, and 0 past the last.
pub(crate) fn block_at(blocks: &[u16], i: usize) -> u16
    ensures { result ≡ slice_index blocks.now i }
{
    match blocks.get(i) {
        Some(block) => *block,
        None => 0,
    }
}

/// What is known of the qTD in this block.
pub(crate) fn note_in(notes: &[QtdNote], block: u16) -> QtdNote
    ensures { result ≡ note_at notes.now block }
{
    match notes.get(block as usize) {
        Some(note) => *note,
        None => QtdNote {
            next: 0,
            buffer: [0; 5],
            runs: 0,
            told: 0,
            moved: 0,
        },
    }
}

/// Notes this of the qTD in a block, if there is such a block.
fn put_note(notes: &mut [QtdNote], block: u16, note: QtdNote)
    ensures { notes.new ≡ slice_set notes.old block note }
{
    if (block as usize) < notes.len() {
        notes[block as usize] = note;
    }
}

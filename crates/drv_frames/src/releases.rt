//! Blocks that are given back once they have left the frame list (EHCI 1.0, 4.6).
ghost use Rattle.std.specs.Prelude.{◌≡◌, map, vec_capacity};
ghost use Rattle.mem_runs.specs.Book.{holding, Stands};
ghost use Rattle.drv_table.specs.Removals.{free_descriptor, free_descriptors, let_go_waiting, let_go_placed};
ghost use Rattle.drv_frames.specs.Leaving.{freed_waiting, freed_placed};

use drv_endpoints::is_isochronous;
use drv_frames_content::PeriodicPart;
use drv_harvests::{free_runs_at, free_transfers_of, let_all_go, waits_at};
use drv_table::{Endpoint, QtdNote, Transfer};
use mem_runs::RunBook;
use word_mem::WordMem;

/// Gives back the blocks of the descriptor in this block and of its buffer.
pub fn free_descriptor(book: &mut RunBook, mem: &mut WordMem, periodic: &PeriodicPart, block: u16)
    requires { Stands (holding book.old mem.old) }
    ensures freed { holding book.new mem.new ≡ free_descriptor periodic.now.periodic.notes (holding book.old mem.old) block }
    ensures stands { Stands (holding book.new mem.new) }
{
    let note = periodic.note(block);
    book.release(mem, block);
    let runs = (note.runs as usize).min(6);
    free_runs_at(book, mem, &note.buffer[..runs]);
}

/// Gives back the blocks of this descriptor, if it waits at the endpoint.
fn free_if_waiting(
    book: &mut RunBook,
    mem: &mut WordMem,
    periodic: &PeriodicPart,
    e: usize,
    transfer: &Transfer,
)
    requires { Stands (holding book.old mem.old) }
    ensures freed { holding book.new mem.new ≡ freed_waiting periodic.now.periodic.notes e (holding book.old mem.old) transfer.now }
    ensures stands { Stands (holding book.new mem.new) }
{
    if !waits_at(transfer, e) {
        return;
    }
    free_descriptor(book, mem, periodic, transfer.first);
}

/// Gives back the blocks of each of these descriptors that waits at the endpoint.
#[tactic(auto, using(std::proofs::lemmas::Grind::common_steps, crate::proofs::Freed::waiting_more, crate::proofs::Freed::waiting_all))]
fn free_waiting(
    book: &mut RunBook,
    mem: &mut WordMem,
    periodic: &PeriodicPart,
    e: usize,
    transfers: &[Transfer],
)
    requires { Stands (holding book.old mem.old) }
    ensures freed { holding book.new mem.new ≡ free_descriptors periodic.now.periodic.notes e (holding book.old mem.old) transfers.now }
    ensures stands { Stands (holding book.new mem.new) }
{
    for transfer in transfers {
        free_if_waiting(book, mem, periodic, e, transfer);
    }
}

/// Gives back the blocks of an interrupt endpoint, or of the outstanding descriptors of an isochronous one.
pub fn free_placed(
    book: &mut RunBook,
    mem: &mut WordMem,
    notes: &[QtdNote],
    periodic: &PeriodicPart,
    e: usize,
    endpoint: &Endpoint,
    transfers: &[Transfer],
)
    requires { Stands (holding book.old mem.old) }
    ensures freed { holding book.new mem.new ≡ freed_placed notes.now periodic.now.periodic.notes e endpoint.now (holding book.old mem.old) transfers.now }
    ensures stands { Stands (holding book.new mem.new) }
{
    if is_isochronous(endpoint.desc.kind) {
        free_waiting(book, mem, periodic, e, transfers);
        return;
    }
    free_runs_at(book, mem, &[endpoint.queue, endpoint.dummy]);
    free_transfers_of(book, notes, mem, e, transfers);
}

/// A descriptor that lets its blocks go, if it waits at the endpoint, and with `told` is reported.
fn let_if_waiting(transfer: Transfer, e: usize, told: bool) -> Transfer
    ensures { result ≡ let_go_waiting e told transfer }
{
    if !waits_at(&transfer, e) {
        return transfer;
    }
    let mut gone = transfer;
    gone.released = true;
    gone.reported = transfer.reported || told;
    gone
}

/// Each descriptor that waits at the endpoint lets its blocks go, and with `told` it is reported.
fn let_waiting_go(transfers: &mut Vec<Transfer>, e: usize, told: bool)
    ensures items { transfers.new.items ≡ map (let_go_waiting e told) transfers.old.items }
    ensures capacity { vec_capacity transfers.new ≡ vec_capacity transfers.old }
{
    for k in 0..transfers.len() {
        transfers[k] = let_if_waiting(transfers[k], e, told);
    }
}

/// The transfers of a periodic endpoint let their blocks go, and with `told` they are reported; of an isochronous one those that wait.
pub fn let_placed_go(transfers: &mut Vec<Transfer>, e: usize, iso: bool, told: bool)
    ensures items { transfers.new.items ≡ map (let_go_placed iso e told) transfers.old.items }
    ensures capacity { vec_capacity transfers.new ≡ vec_capacity transfers.old }
{
    if !iso {
        let_all_go(transfers, e, told);
        return;
    }
    let_waiting_go(transfers, e, told);
}

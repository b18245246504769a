ghost use Rattle.std.specs.Prelude.{◌≡◌, ◌≤◌, ◌-◌, ◌∷◌, ◌++◌, [], replicate, Ok, Err, Some, None, IfOk, IfErr};
ghost use Rattle.mem_runs.specs.Book.{Holding, holding, Stands, take_run, IsTakenFrom};
ghost use Rattle.word_mem.specs.Free.{longest_run};
ghost use Rattle.drv_table.specs.Words.{buffer_needs};
ghost use Rattle.drv_periodic_table.specs.Descriptors.{slot_limit};
ghost use Rattle.drv_table.specs.Accepting.{take_runs};
ghost use Rattle.drv_table.specs.IsoOffers.{iso_needs, descriptor_blocks, total_of};

use crate::slots::total_bytes;
use drv_queues::{take_buffer, take_each};
use drv_table::Slots;
use mem_runs::RunBook;
use usb_base::OfferError;
use word_mem::WordMem;

/// Takes the runs of so many descriptors: two blocks for each iTD or one for each siTD, and then those of its buffer.
///
/// # Errors
///
/// `NoBlocks` where a run isn't found. Nothing changes then.
pub fn take_descriptors(
    book: &mut RunBook,
    mem: &mut WordMem,
    slots: &Slots,
    count: u8,
) -> Result<(), OfferError>
    requires slot { slots.now.slot ≤ slot_limit slots.now.split }
    requires stands { Stands (holding book.old mem.old) }
    ensures taken { IfOk result (λ _. take_runs (holding book.old mem.old) (iso_needs slots.now count) ≡ Ok (holding book.new mem.new)) }
    ensures refused { IfErr result (λ why. take_runs (holding book.old mem.old) (iso_needs slots.now count) ≡ Err why) }
    ensures same { IfErr result (λ _. holding book.new mem.new ≡ holding book.old mem.old) }
    ensures stands { Stands (holding book.new mem.new) }
{
    let before = book.taken().len();
    match take_all(book, mem, slots, count) {
        Ok(()) => Ok(()),
        Err(why) => {
            book.give_back(mem, before);
            Err(why)
        }
    }
}

/// Takes the runs of so many descriptors, as far as they are found.
#[tactic(auto, using(std::proofs::lemmas::Grind::common_steps, crate::proofs::Taken::one_found, crate::proofs::Taken::one_missing, crate::proofs::Taken::all_found))]
fn take_all(
    book: &mut RunBook,
    mem: &mut WordMem,
    slots: &Slots,
    count: u8,
) -> Result<(), OfferError>
    requires slot { slots.now.slot ≤ slot_limit slots.now.split }
    requires stands { Stands (holding book.old mem.old) }
    ensures taken { IfOk result (λ _. take_runs (holding book.old mem.old) (iso_needs slots.now count) ≡ Ok (holding book.new mem.new)) }
    ensures refused { IfErr result (λ why. take_runs (holding book.old mem.old) (iso_needs slots.now count) ≡ Err why) }
    ensures from { (before : Holding) → IsTakenFrom before (holding book.old mem.old) → IsTakenFrom before (holding book.new mem.new) }
    ensures stands { Stands (holding book.new mem.new) }
{
    let blocks = blocks_of(slots);
    let total = total_bytes(slots);
    for _descriptor in 0..count {
        take_one_descriptor(book, mem, blocks, total)?;
    }
    Ok(())
}

/// How many blocks a descriptor has: an iTD has sixteen words, a siTD seven.
fn blocks_of(slots: &Slots) -> u32
    ensures blocks { result ≡ descriptor_blocks slots.now }
    ensures some { 1 ≤ result }
    ensures few { result ≤ 2 }
{
    if slots.split { 1 } else { 2 }
}

/// Takes the runs of a descriptor of so many blocks, as far as they are found.
#[tactic(auto, using(std::proofs::lemmas::Grind::common_steps, crate::proofs::Taken::first_found, crate::proofs::Taken::first_missing))]
fn take_one_descriptor(
    book: &mut RunBook,
    mem: &mut WordMem,
    blocks: u32,
    total: u16,
) -> Result<(), OfferError>
    requires some { 1 ≤ blocks }
    requires few { blocks ≤ 2 }
    requires total { total ≤ 24576 }
    requires stands { Stands (holding book.old mem.old) }
    ensures taken { IfOk result (λ _. take_runs (holding book.old mem.old) (blocks ∷ buffer_needs total) ≡ Ok (holding book.new mem.new)) }
    ensures refused { IfErr result (λ why. take_runs (holding book.old mem.old) (blocks ∷ buffer_needs total) ≡ Err why) }
    ensures from { (before : Holding) → IsTakenFrom before (holding book.old mem.old) → IsTakenFrom before (holding book.new mem.new) }
    ensures stands { Stands (holding book.new mem.new) }
{
    take_each(book, mem, blocks, 1)?;
    take_buffer(book, mem, total)
}

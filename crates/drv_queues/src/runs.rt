ghost use Rattle.std.specs.Prelude.{◌≡◌, ◌≤◌, [], ◌∷◌, length, drop, replicate, slice_index, Ok, Err, Some, None, IfOk, IfErr};
ghost use Rattle.std.specs.List.{flat_map};
ghost use Rattle.mem_runs.specs.Book.{Holding, holding, Stands, take_run, IsTakenFrom};
ghost use Rattle.word_mem.specs.Free.{longest_run};
ghost use Rattle.drv_table.specs.Words.{buffer_needs, needs};
ghost use Rattle.drv_table.specs.Accepting.{take_runs};
ghost use Rattle.drv_words.specs.Cuts.{stages_of, IsCut};

use drv_words::Cut;
use mem_runs::RunBook;
use usb_base::OfferError;
use word_mem::WordMem;

/// Takes the runs of a transfer: one block for the qTD of each stage, and then the runs of their buffers.
///
/// # Errors
///
/// `NoBlocks` where a run isn't found. Nothing changes then.
pub fn take_transfer(book: &mut RunBook, mem: &mut WordMem, cut: &Cut) -> Result<(), OfferError>
    requires cut { IsCut cut.now }
    requires stands { Stands (holding book.old mem.old) }
    ensures taken { IfOk result (λ _. take_runs (holding book.old mem.old) (needs (stages_of cut.now)) ≡ Ok (holding book.new mem.new)) }
    ensures refused { IfErr result (λ why. take_runs (holding book.old mem.old) (needs (stages_of cut.now)) ≡ Err why) }
    ensures same { IfErr result (λ _. holding book.new mem.new ≡ holding book.old mem.old) }
    ensures stands { Stands (holding book.new mem.new) }
{
    let before = book.taken().len();
    match take_parts(book, mem, cut) {
        Ok(()) => Ok(()),
        Err(why) => {
            book.give_back(mem, before);
            Err(why)
        }
    }
}

/// Takes the runs of a transfer, as far as they are found.
#[tactic(auto, using(std::proofs::lemmas::Grind::common_steps, crate::proofs::Taking::needs_both, crate::proofs::Taking::needs_missing))]
fn take_parts(book: &mut RunBook, mem: &mut WordMem, cut: &Cut) -> Result<(), OfferError>
    requires cut { IsCut cut.now }
    requires stands { Stands (holding book.old mem.old) }
    ensures taken { IfOk result (λ _. take_runs (holding book.old mem.old) (needs (stages_of cut.now)) ≡ Ok (holding book.new mem.new)) }
    ensures refused { IfErr result (λ why. take_runs (holding book.old mem.old) (needs (stages_of cut.now)) ≡ Err why) }
    ensures from { (before : Holding) → IsTakenFrom before (holding book.old mem.old) → IsTakenFrom before (holding book.new mem.new) }
    ensures stands { Stands (holding book.new mem.new) }
{
    take_each(book, mem, 1, cut.count())?;
    take_buffers(book, mem, cut)
}

/// Takes the runs of the buffers of a transfer, as far as they are found.
#[tactic(auto, using(std::proofs::lemmas::Grind::common_steps, crate::proofs::Taking::found_buffer, crate::proofs::Taking::missing_buffer))]
fn take_buffers(book: &mut RunBook, mem: &mut WordMem, cut: &Cut) -> Result<(), OfferError>
    requires cut { IsCut cut.now }
    requires stands { Stands (holding book.old mem.old) }
    ensures taken { IfOk result (λ _. take_runs (holding book.old mem.old) (flat_map (λ s. buffer_needs s.long) (stages_of cut.now)) ≡ Ok (holding book.new mem.new)) }
    ensures refused { IfErr result (λ why. take_runs (holding book.old mem.old) (flat_map (λ s. buffer_needs s.long) (stages_of cut.now)) ≡ Err why) }
    ensures from { (before : Holding) → IsTakenFrom before (holding book.old mem.old) → IsTakenFrom before (holding book.new mem.new) }
    ensures stands { Stands (holding book.new mem.new) }
{
    for k in 0..cut.count() {
        take_buffer(book, mem, cut.stage(k).long)?;
    }
    Ok(())
}

/// Takes the runs of a buffer of `long` bytes, as far as they are found: one run, or whole pages (EHCI 1.0, 3.5.4).
///
/// # Errors
///
/// `NoBlocks` where a run isn't found; those before it are taken then.
#[tactic(auto, using(std::proofs::lemmas::Grind::common_steps, crate::proofs::Taking::needs_nothing, crate::proofs::Taking::needs_one, crate::proofs::Taking::needs_pages))]
pub fn take_buffer(book: &mut RunBook, mem: &mut WordMem, long: u16) -> Result<(), OfferError>
    requires long { long ≤ 24576 }
    requires stands { Stands (holding book.old mem.old) }
    ensures taken { IfOk result (λ _. take_runs (holding book.old mem.old) (buffer_needs long) ≡ Ok (holding book.new mem.new)) }
    ensures refused { IfErr result (λ why. take_runs (holding book.old mem.old) (buffer_needs long) ≡ Err why) }
    ensures from { (before : Holding) → IsTakenFrom before (holding book.old mem.old) → IsTakenFrom before (holding book.new mem.new) }
    ensures stands { Stands (holding book.new mem.new) }
{
    if long == 0 {
        return Ok(());
    }
    if long <= 4096 {
        return take_each(book, mem, (long as u32 + 31) / 32, 1);
    }
    take_each(book, mem, 128, (long + 4095) / 4096)
}

/// Takes `count` runs of `n` blocks, as far as they are found.
///
/// # Errors
///
/// `NoBlocks` where a run isn't found; those before it are taken then.
#[tactic(auto, using(std::proofs::lemmas::Grind::common_steps, crate::proofs::Taking::found_next, crate::proofs::Taking::missing_next, crate::proofs::Taking::none_left))]
pub fn take_each(
    book: &mut RunBook,
    mem: &mut WordMem,
    n: u32,
    count: u16,
) -> Result<(), OfferError>
    requires at_least { 1 ≤ n }
    requires at_most { n ≤ 128 }
    requires stands { Stands (holding book.old mem.old) }
    ensures taken { IfOk result (λ _. take_runs (holding book.old mem.old) (replicate count n) ≡ Ok (holding book.new mem.new)) }
    ensures refused { IfErr result (λ why. take_runs (holding book.old mem.old) (replicate count n) ≡ Err why) }
    ensures from { (before : Holding) → IsTakenFrom before (holding book.old mem.old) → IsTakenFrom before (holding book.new mem.new) }
    ensures stands { Stands (holding book.new mem.new) }
{
    for _run in 0..count {
        take_one(book, mem, n)?;
    }
    Ok(())
}

/// Takes the lowest run of `n` blocks.
fn take_one(book: &mut RunBook, mem: &mut WordMem, n: u32) -> Result<(), OfferError>
    requires at_least { 1 ≤ n }
    requires at_most { n ≤ 128 }
    requires stands { Stands (holding book.old mem.old) }
    ensures taken { IfOk result (λ _. take_run (holding book.old mem.old) n ≡ Some (holding book.new mem.new)) }
    ensures refused { IfErr result (λ why. (take_run (holding book.old mem.old) n ≡ None) × (why ≡ OfferError.NoBlocks n (longest_run mem.old.states))) }
    ensures same { IfErr result (λ _. holding book.new mem.new ≡ holding book.old mem.old) }
    ensures from { (before : Holding) → IsTakenFrom before (holding book.old mem.old) → IsTakenFrom before (holding book.new mem.new) }
    ensures stands { Stands (holding book.new mem.new) }
{
    match book.take(mem, n) {
        Some(_) => Ok(()),
        None => Err(no_blocks(mem, n)),
    }
}

/// No page has a free run of `need` blocks.
fn no_blocks(mem: &WordMem, need: u32) -> OfferError
    ensures { result ≡ OfferError.NoBlocks need (longest_run mem.now.states) }
{
    OfferError::NoBlocks {
        need,
        largest: mem.largest_free(),
    }
}

/// Takes the runs of an endpoint of the ring: two blocks for its queue head, and one for the dummy. It tells where they begin.
///
/// # Errors
///
/// `NoBlocks` where a run isn't found. Nothing changes then.
pub fn take_endpoint(book: &mut RunBook, mem: &mut WordMem) -> Result<(u16, u16), OfferError>
    requires stands { Stands (holding book.old mem.old) }
    ensures taken { IfOk result (λ _. take_runs (holding book.old mem.old) (2 ∷ 1 ∷ []) ≡ Ok (holding book.new mem.new)) }
    ensures queue { IfOk result (λ both. slice_index (drop (length book.old.taken) book.new.taken) 0 ≡ both.0) }
    ensures dummy { IfOk result (λ both. slice_index (drop (length book.old.taken) book.new.taken) 1 ≡ both.1) }
    ensures refused { IfErr result (λ why. take_runs (holding book.old mem.old) (2 ∷ 1 ∷ []) ≡ Err why) }
    ensures same { IfErr result (λ _. holding book.new mem.new ≡ holding book.old mem.old) }
    ensures stands { Stands (holding book.new mem.new) }
{
    let keep = book.taken().len();
    let Some(queue) = book.take(mem, 2) else {
        return Err(no_blocks(mem, 2));
    };
    let Some(dummy) = book.take(mem, 1) else {
        let why = no_blocks(mem, 1);
        book.give_back(mem, keep);
        return Err(why);
    };
    Ok((queue, dummy))
}

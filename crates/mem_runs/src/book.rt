ghost use Rattle.std.specs.Prelude.{◌≡◌, ◌≤◌, ◌<◌, ◌+◌, ◌*◌, ◌%◌, ◌/◌, ℕ, ◌^◌, [], ◌∷◌, ◌++◌, length, replicate, Some, None, IfOk, IfSome, IfNone};
ghost use Rattle.mem_runs.specs.Book.{has_address};
ghost use Rattle.word_mem.specs.Memory.{fresh};

use crate::slots::Slot;
use std::alloc::Global;
use std::marker::Model;
use std::mem;
use usb_base::Memory;
use word_mem::WordMem;

/// The runs of blocks that a driver has: by the block in which each begins, and which of them were taken last and aren't lent yet.
#[derive(Drop)]
pub struct RunBook {
    slots: Vec<Slot>,
    taken: Vec<u16>,
}

impl Model for RunBook {
    ghost use Rattle.std.specs.Prelude.{◌≤◌, vec_len, vec_capacity};
    ghost use Rattle.mem_runs.specs.Book.{Book};

    ghost Value = { Book };

    ghost view = { λ k. record { slots = k.slots.items; taken = k.taken.items } };

    ghost invariant = { λ k. vec_len k.slots ≤ vec_capacity k.taken };
}

impl RunBook {
    ghost use Rattle.mem_runs.specs.Book.{Book, Holding, holding, Stands, take_run, lend_slot, lend_taken, release_run, store, store_words, slot_of, slot_at, with_slot, kept_in, drop_slot, IsTakenFrom};

    /// A book of no runs, for a memory just built, all of whose blocks are Free.
    ///
    /// # Errors
    ///
    /// `Memory` where the book finds no room.
    pub fn build(alloc: Global, mem: &WordMem) -> Result<RunBook, Memory>
        requires { mem.now ≡ fresh (length mem.now.words) }
        ensures book { IfOk result (λ k. k ≡ record { slots = replicate (length mem.now.words / 8) Slot.Empty; taken = [] }) }
        ensures stands { IfOk result (λ k. Stands (holding k mem.now)) }
    {
        let words = mem.words();
        let book = Self::of_blocks(alloc, words / 8)?;
        Ok(book)
    }

    /// A book of no runs, for this many blocks.
    fn of_blocks(alloc: Global, blocks: u32) -> Result<RunBook, Memory>
        requires { blocks ≤ 32768 }
        ensures { IfOk result (λ k. k ≡ record { slots = replicate blocks Slot.Empty; taken = [] }) }
    {
        let mut slots = Vec::with_capacity(alloc, blocks as usize)?;
        for _block in 0..blocks {
            slots.push_reserved(Slot::Empty);
        }
        Ok(RunBook {
            slots,
            taken: Vec::with_capacity(alloc, blocks as usize)?,
        })
    }

    /// Where the runs begin that were taken last and aren't lent yet, in the order of taking: numbers of blocks.
    pub fn taken(&self) -> &[u16]
        ensures { result.now ≡ self.now.taken }
    {
        self.taken.as_slice()
    }

    /// Takes the lowest run of `n` Free blocks inside one page, 1 to 128 of them, and tells the block in which it begins. None: there is no
    /// such run, and nothing changes.
    pub fn take(&mut self, mem: &mut WordMem, n: u32) -> Option<u16>
        requires at_least { 1 ≤ n }
        requires at_most { n ≤ 128 }
        requires stands { Stands (holding self.old mem.old) }
        ensures taken { IfSome result (λ b. (take_run (holding self.old mem.old) n ≡ Some (holding self.new mem.new)) × (self.new.taken ≡ self.old.taken ++ b ∷ [])) }
        ensures none { IfNone result (take_run (holding self.old mem.old) n ≡ None) }
        ensures same { IfNone result ((self.new ≡ self.old) × (mem.new ≡ mem.old)) }
        ensures from { (before : Holding) → IsTakenFrom before (holding self.old mem.old) → IsTakenFrom before (holding self.new mem.new) }
        ensures stands { Stands (holding self.new mem.new) }
    {
        let _words = mem.words();
        let run = mem.take(n)?;
        let first = run.first() as u16;
        self.taken.push_reserved(first);
        self.put(first, Slot::Keeps(run));
        Some(first)
    }

    /// Lends the runs that were taken last.
    pub fn lend_taken(&mut self, mem: &mut WordMem)
        requires { Stands (holding self.old mem.old) }
        ensures lent { holding self.new mem.new ≡ lend_taken (holding self.old mem.old) }
        ensures stands { Stands (holding self.new mem.new) }
    {
        while let Some(first) = self.pop() {
            self.lend(mem, first);
        }
    }

    /// Lends the run that begins in this block, if the driver keeps one there.
    fn lend(&mut self, mem: &mut WordMem, first: u16)
        requires stands { Stands (holding self.old mem.old) }
        requires more { length self.old.taken + 1 ≤ length (kept_in self.old.slots) }
        ensures lent { holding self.new mem.new ≡ lend_slot (holding self.old mem.old) first (slot_at (holding self.old mem.old) first) }
        ensures stands { Stands (holding self.new mem.new) }
    {
        match self.withdraw(first) {
            Slot::Empty => {}
            Slot::Keeps(run) => {
                let run = mem.lend(run);
                self.put(first, Slot::Lends(run));
            }
            Slot::Lends(run) => self.put(first, Slot::Lends(run)),
        }
    }

    /// Gives back the run that begins in this block, where one is lent: its blocks are Free, and their words 0.
    pub fn release(&mut self, mem: &mut WordMem, first: u16)
        requires { Stands (holding self.old mem.old) }
        ensures released { holding self.new mem.new ≡ release_run (holding self.old mem.old) first }
        ensures stands { Stands (holding self.new mem.new) }
    {
        match self.withdraw(first) {
            Slot::Empty => {}
            Slot::Keeps(run) => self.put(first, Slot::Keeps(run)),
            Slot::Lends(run) => {
                let _words = mem.words();
                let run = mem.unlend(run);
                mem.release(run);
            }
        }
    }

    /// Gives back the runs that were taken last, but the first `keep` of them, as if they had not been taken.
    pub fn give_back(&mut self, mem: &mut WordMem, keep: usize)
        requires { Stands (holding self.old mem.old) }
        ensures undone { (before : Holding) → length before.book.taken ≡ keep → IsTakenFrom before (holding self.old mem.old) → holding self.new mem.new ≡ before }
        ensures stands { Stands (holding self.new mem.new) }
    {
        while let Some(first) = self.pop_above(keep) {
            let _words = mem.words();
            self.drop_taken(mem, first);
        }
    }

    /// Gives back the run that begins in this block, if the driver keeps one there.
    fn drop_taken(&mut self, mem: &mut WordMem, first: u16)
        requires stands { Stands (holding self.old mem.old) }
        requires more { length self.old.taken + 1 ≤ length (kept_in self.old.slots) }
        ensures dropped { holding self.new mem.new ≡ drop_slot (holding self.old mem.old) first (slot_at (holding self.old mem.old) first) }
        ensures stands { Stands (holding self.new mem.new) }
    {
        match self.withdraw(first) {
            Slot::Empty => {}
            Slot::Keeps(run) => {
                let _words = mem.words();
                mem.release(run);
            }
            Slot::Lends(run) => self.put(first, Slot::Lends(run)),
        }
    }

    /// The last of the runs taken last: it is one of them no more.
    fn pop(&mut self) -> Option<u16>
        ensures last { IfSome result (λ b. self.old.taken ≡ self.new.taken ++ b ∷ []) }
        ensures slots { self.new.slots ≡ self.old.slots }
        ensures none { IfNone result ((self.new ≡ self.old) × (self.old.taken ≡ [])) }
    {
        self.taken.pop()
    }

    /// The last of the runs taken last, where there are more than `keep`: it is one of them no more.
    fn pop_above(&mut self, keep: usize) -> Option<u16>
        ensures last { IfSome result (λ b. self.old.taken ≡ self.new.taken ++ b ∷ []) }
        ensures slots { self.new.slots ≡ self.old.slots }
        ensures more { IfSome result (λ _. keep < length self.old.taken) }
        ensures none { IfNone result ((self.new ≡ self.old) × (length self.old.taken ≤ keep)) }
    {
        if self.taken.len() <= keep {
            return None;
        }
        self.pop()
    }

    /// Takes out what begins in this block.
    fn withdraw(&mut self, first: u16) -> Slot
        ensures slot { result ≡ slot_of self.old.slots first }
        ensures book { self.new ≡ with_slot self.old first Slot.Empty }
    {
        if first as usize >= self.slots.len() {
            return Slot::Empty;
        }
        mem::replace(&mut self.slots[first as usize], Slot::Empty)
    }

    /// Puts this where a block begins.
    fn put(&mut self, first: u16, slot: Slot)
        requires { first < length self.old.slots }
        ensures { self.new ≡ with_slot self.old first slot }
    {
        self.slots[first as usize] = slot;
    }

    /// Writes `v` to the word of the byte address `at`, where that lies in the run that begins in the block `first`; else nothing changes.
    pub fn store(&self, mem: &mut WordMem, first: u16, at: u32, v: u32)
        requires { Stands (holding self.now mem.old) }
        ensures memory { mem.new ≡ store self.now mem.old first at v }
        ensures stands { Stands (holding self.now mem.new) }
    {
        match self.slots.get(first as usize) {
            Some(Slot::Keeps(run)) => {
                if is_in(run.first(), run.blocks(), at) {
                    mem.kept_write(run, at - at % 4, v);
                }
            }
            Some(Slot::Lends(run)) => {
                if is_in(run.first(), run.blocks(), at) {
                    mem.shared_write(run, at - at % 4, v);
                }
            }
            _ => {}
        }
    }

    /// Writes these words from the byte address `at` on, as `store` does.
    pub fn store_words(&self, mem: &mut WordMem, first: u16, at: u32, words: &[u32])
        requires fits { at + 4 * length words.now < 2 ^ 32 }
        requires stands { Stands (holding self.now mem.old) }
        ensures memory { mem.new ≡ store_words self.now mem.old first at words.now }
        ensures stands { Stands (holding self.now mem.new) }
    {
        for (i, word) in words.iter().enumerate() {
            self.store(mem, first, at + 4 * i as u32, *word);
        }
    }
}

/// Whether the byte address `at` lies in these blocks.
fn is_in(first: u32, blocks: u32, at: u32) -> bool
    requires { first + blocks ≤ 32768 }
    ensures { result ≡ has_address (record { first = first; blocks = blocks }) at }
{
    32 * first <= at && at < 32 * (first + blocks)
}

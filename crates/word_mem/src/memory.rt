ghost use Rattle.std.specs.Prelude.{◌≡◌, ℕ, ◌+◌, ◌*◌, ◌/◌, ◌%◌, ◌^◌, ◌<◌, ◌≤◌, List, length, slice_get, slice_index, Option, Some, None, true, IsTrue, IfOk, IfSome, if◌then◌else◌};
ghost use Rattle.usb_base.specs.Limits.{most_memory};

use crate::blocks::{BlockRun, BlockState, LentRun};
use crate::copies::{copy_in, copy_out, overwrite};
use crate::scan::{longest_free_run, lowest_free_run};
use std::alloc::Global;
use std::marker::Model;
use usb_base::Memory;

/// The words of memory that driver and controller share, in blocks of 8 words (32 bytes) and pages of 128 blocks (4,096 bytes).
///
/// Addresses are byte addresses from 0, and each one is a multiple of 4. Byte `j` of a buffer is byte `j mod 4` of its word, the
/// lowest first. The driver has typed runs for the blocks that it owns; the controller reaches the words of Lent blocks alone.
#[derive(Drop)]
pub struct WordMem {
    words: Vec<u32>,
    states: Vec<BlockState>,
    foreign: u64,
}

impl Model for WordMem {
    ghost use Rattle.word_mem.specs.Memory.{Mem, IsShaped};

    ghost Value = { Mem };

    ghost view = { λ m. record { words = m.words.items; states = m.states.items; foreign = m.foreign } };

    ghost invariant = { λ m. IsShaped (record { words = m.words.items; states = m.states.items; foreign = m.foreign }) };
}

impl WordMem {
    ghost use Rattle.word_mem.specs.Runs.{IsInRun};
    ghost use Rattle.word_mem.specs.Memory.{IsShaped, AreAll, fresh, all_lent, word_at, state_at, reaches, with_word, with_states, released, refused};
    ghost use Rattle.word_mem.specs.Access.{IsByController};
    ghost use Rattle.word_mem.specs.Views.{words_at, with_words};
    ghost use Rattle.word_mem.specs.Free.{IsTaken, IsLongest, with_taken, lowest_run, longest_run};

    /// Memory of `words` words, all of them 0, in Free blocks. `words` is a multiple of 1,024 from 1,024 to 262,144.
    ///
    /// # Errors
    ///
    /// `Memory` where the words or the states find no room.
    pub fn build(alloc: Global, words: u32) -> Result<WordMem, Memory>
        requires at_least { 1024 ≤ words }
        requires at_most { words ≤ most_memory }
        requires whole_pages { words % 1024 ≡ 0 }
        ensures { IfOk result (λ m. m ≡ fresh words) }
    {
        Ok(WordMem {
            words: vec![in alloc; 0; words as usize]?,
            states: vec![in alloc; BlockState::Free; (words / 8) as usize]?,
            foreign: 0,
        })
    }

    /// Memory with these words, all of its blocks Lent. They are as many as `build` takes.
    ///
    /// # Errors
    ///
    /// `Memory` where the words or the states find no room.
    pub fn from_words(alloc: Global, words: &[u32]) -> Result<WordMem, Memory>
        requires at_least { 1024 ≤ length words.now }
        requires at_most { length words.now ≤ most_memory }
        requires whole_pages { length words.now % 1024 ≡ 0 }
        ensures { IfOk result (λ m. m ≡ all_lent words.now) }
    {
        Ok(WordMem {
            words: words.to_vec(alloc)?,
            states: vec![in alloc; BlockState::Lent; words.len() / 8]?,
            foreign: 0,
        })
    }

    /// How many words it has: a multiple of 1,024 from 1,024 to 262,144.
    pub fn words(&self) -> u32
        ensures words { result ≡ length self.now.words }
        ensures shape { IsShaped self.now }
        ensures fits { (i : ℕ) → slice_index self.now.words i < 2 ^ 32 }
    {
        let words = self.words.as_slice();
        words.len() as u32
    }

    /// The word at the byte address `at`, which is a multiple of 4 below 4 times `words()`, whoever owns it.
    pub fn word(&self, at: u32) -> u32
        requires aligned { at % 4 ≡ 0 }
        requires inside { at < 4 * length self.now.words }
        ensures { result ≡ word_at self.now at }
    {
        self.words[(at / 4) as usize]
    }

    /// The state of a block, by its number, which is below an eighth of `words()`.
    pub fn state(&self, block: u32) -> BlockState
        requires { block < length self.now.states }
        ensures { state_at self.now block ≡ Some result }
    {
        self.states[block as usize]
    }

    /// Hands out the lowest run of `n` consecutive Free blocks inside one page, 1 to 128 of them, and makes them Kept. Their words are
    /// left as they are. None: there is no such run, and nothing changes; `largest_free` tells the longest.
    pub fn take(&mut self, n: u32) -> Option<BlockRun>
        requires at_least { 1 ≤ n }
        requires at_most { n ≤ 128 }
        ensures run { IsTaken self.old.states n result }
        ensures memory { self.new ≡ with_taken self.old result }
        ensures kept { IfSome result (AreAll self.new BlockState.Kept) }
        ensures found { result ≡ lowest_run self.old.states n }
    {
        let Some(first) = lowest_free_run(&self.states, n as usize) else {
            return None;
        };
        let first = first as u32;
        self.mark(first, n, BlockState::Kept);
        Some(BlockRun::new(first, n))
    }

    /// How many blocks the longest run of Free blocks inside one page has, 1 to 128, or 0.
    pub fn largest_free(&self) -> u32
        ensures longest { IsLongest self.now.states result }
        ensures found { result ≡ longest_run self.now.states }
    {
        longest_free_run(&self.states) as u32
    }

    /// Lends a run to the controller: its blocks, all of them Kept in this memory, are Lent.
    pub fn lend(&mut self, run: BlockRun) -> LentRun
        requires { AreAll self.old BlockState.Kept run }
        ensures run { result ≡ run }
        ensures memory { self.new ≡ with_states self.old run BlockState.Lent }
        ensures lent { AreAll self.new BlockState.Lent run }
    {
        self.mark(run.first(), run.blocks(), BlockState::Lent);
        run.into_lent()
    }

    /// Takes a run back from the controller: its blocks, all of them Lent in this memory, are Kept.
    pub fn unlend(&mut self, run: LentRun) -> BlockRun
        requires { AreAll self.old BlockState.Lent run }
        ensures run { result ≡ run }
        ensures memory { self.new ≡ with_states self.old run BlockState.Kept }
        ensures kept { AreAll self.new BlockState.Kept run }
    {
        self.mark(run.first(), run.blocks(), BlockState::Kept);
        run.into_kept()
    }

    /// Gives a run back: its blocks, all of them Kept in this memory, are Free, and their words are 0.
    pub fn release(&mut self, run: BlockRun)
        requires { AreAll self.old BlockState.Kept run }
        ensures { self.new ≡ released self.old run }
    {
        let first = run.first() as usize;
        let blocks = run.blocks() as usize;
        overwrite(&mut self.words, 8 * first, 8 * blocks, 0);
        overwrite(&mut self.states, first, blocks, BlockState::Free);
    }

    /// The word at the byte address `at`, a multiple of 4 in the run, whose blocks are all Kept in this memory.
    pub fn kept_read(&self, run: &BlockRun, at: u32) -> u32
        requires aligned { at % 4 ≡ 0 }
        requires inside { IsInRun run.now at }
        requires kept { AreAll self.now BlockState.Kept run.now }
        ensures { result ≡ word_at self.now at }
    {
        let kept = (at / 4) as usize;
        self.words[kept]
    }

    /// Writes `v` to the word at the byte address `at`, a multiple of 4 in the run, whose blocks are all Kept in this memory.
    pub fn kept_write(&mut self, run: &BlockRun, at: u32, v: u32)
        requires aligned { at % 4 ≡ 0 }
        requires inside { IsInRun run.now at }
        requires kept { AreAll self.old BlockState.Kept run.now }
        ensures memory { self.new ≡ with_word self.old at v }
        ensures word { word_at self.new at ≡ v }
    {
        let kept = &mut self.words[(at / 4) as usize];
        *kept = v;
    }

    /// The word at the byte address `at`, a multiple of 4 in the run, whose blocks are all Lent in this memory.
    pub fn shared_read(&self, run: &LentRun, at: u32) -> u32
        requires aligned { at % 4 ≡ 0 }
        requires inside { IsInRun run.now at }
        requires lent { AreAll self.now BlockState.Lent run.now }
        ensures { result ≡ word_at self.now at }
    {
        let lent = (at / 4) as usize;
        self.words[lent]
    }

    /// Writes `v` to the word at the byte address `at`, a multiple of 4 in the run, whose blocks are all Lent in this memory.
    pub fn shared_write(&mut self, run: &LentRun, at: u32, v: u32)
        requires aligned { at % 4 ≡ 0 }
        requires inside { IsInRun run.now at }
        requires lent { AreAll self.old BlockState.Lent run.now }
        ensures memory { self.new ≡ with_word self.old at v }
        ensures word { word_at self.new at ≡ v }
    {
        let lent = &mut self.words[(at / 4) as usize];
        *lent = v;
    }

    /// The controller's read of the word at the byte address `at`, a multiple of 4. None: the word is in no Lent block, or past the last
    /// word; then one more refusal is counted, and nothing else changes.
    pub fn hc_read(&mut self, at: u32) -> Option<u32>
        requires { at % 4 ≡ 0 }
        ensures word { result ≡ (if reaches self.old at then Some (word_at self.old at) else None) }
        ensures memory { self.new ≡ (if reaches self.old at then self.old else refused self.old) }
        ensures found { IfSome result (λ w. w ≡ word_at self.old at) }
        ensures same { IfSome result (λ _. self.new ≡ self.old) }
        ensures only_lent { IsByController self.old self.new }
    {
        match self.lent_place(at) {
            Some(place) => Some(self.words[place]),
            None => {
                self.refuse();
                None
            }
        }
    }

    /// The controller's write of `v` to the word at the byte address `at`, a multiple of 4. False: the word is in no Lent block, or past
    /// the last word; then one more refusal is counted, and nothing else changes.
    pub fn hc_write(&mut self, at: u32, v: u32) -> bool
        requires { at % 4 ≡ 0 }
        ensures written { result ≡ reaches self.old at }
        ensures memory { self.new ≡ (if reaches self.old at then with_word self.old at v else refused self.old) }
        ensures word { IsTrue result → word_at self.new at ≡ v }
        ensures only_lent { IsByController self.old self.new }
    {
        match self.lent_place(at) {
            Some(place) => {
                self.words[place] = v;
                true
            }
            None => {
                self.refuse();
                false
            }
        }
    }

    /// The controller's read of the words in a row from the byte address `at` on, a multiple of 4, into all of `into`; they lie in one
    /// block. False: that block isn't Lent, or lies past the last; then one more refusal is counted, and nothing else changes.
    pub fn hc_read_words(&mut self, at: u32, into: &mut [u32]) -> bool
        requires aligned { at % 4 ≡ 0 }
        requires one_block { at % 32 + 4 * length into.old ≤ 32 }
        ensures read { result ≡ reaches self.old at }
        ensures words { into.new ≡ (if reaches self.old at then words_at self.old at (length into.old) else into.old) }
        ensures memory { self.new ≡ (if reaches self.old at then self.old else refused self.old) }
        ensures only_lent { IsByController self.old self.new }
    {
        match self.lent_place(at) {
            Some(first) => {
                copy_out(&self.words, first, into);
                true
            }
            None => {
                self.refuse();
                false
            }
        }
    }

    /// The controller's write of words in a row from the byte address `at` on, a multiple of 4; they lie in one block. False: that block
    /// isn't Lent, or lies past the last; then one more refusal is counted, and nothing else changes.
    pub fn hc_write_words(&mut self, at: u32, words: &[u32]) -> bool
        requires aligned { at % 4 ≡ 0 }
        requires one_block { at % 32 + 4 * length words.now ≤ 32 }
        ensures written { result ≡ reaches self.old at }
        ensures memory { self.new ≡ (if reaches self.old at then with_words self.old at words.now else refused self.old) }
        ensures only_lent { IsByController self.old self.new }
    {
        match self.lent_place(at) {
            Some(_) => {
                self.put_words(at, words);
                true
            }
            None => {
                self.refuse();
                false
            }
        }
    }

    /// How many reads and writes of the controller were refused. The count stays at 18,446,744,073,709,551,615 once it is there.
    pub fn foreign(&self) -> u64
        ensures { result ≡ self.now.foreign }
    {
        self.foreign
    }

    /// Gives `blocks` blocks from `first` on this state.
    fn mark(&mut self, first: u32, blocks: u32, state: BlockState)
        requires { first + blocks ≤ length self.old.states }
        ensures memory { self.new ≡ with_states self.old (record { first = first; blocks = blocks }) state }
        ensures all { AreAll self.new state (record { first = first; blocks = blocks }) }
    {
        overwrite(&mut self.states, first as usize, blocks as usize, state);
    }

    /// The place among the words of the one at the byte address `at`, where the controller may touch it; its block is whole.
    fn lent_place(&self, at: u32) -> Option<usize>
        ensures place { result ≡ (if reaches self.now at then Some (at / 4) else None) }
        ensures within { IfSome result (λ place. place / 8 * 8 + 8 ≤ length self.now.words) }
        ensures lent { IfSome result (λ _. reaches self.now at ≡ true) }
    {
        match self.states.get((at / 32) as usize) {
            Some(BlockState::Lent) => Some((at / 4) as usize),
            _ => None,
        }
    }

    /// Writes words in a row from the byte address `at` on, a multiple of 4.
    fn put_words(&mut self, at: u32, words: &[u32])
        requires aligned { at % 4 ≡ 0 }
        requires within { at / 4 + length words.now ≤ length self.old.words }
        ensures { self.new ≡ with_words self.old at words.now }
    {
        copy_in(&mut self.words, (at / 4) as usize, words);
    }

    /// Counts a refusal.
    fn refuse(&mut self)
        ensures memory { self.new ≡ refused self.old }
        ensures only_lent { IsByController self.old self.new }
    {
        self.foreign = self.foreign.saturating_add(1);
    }
}

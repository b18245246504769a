ghost use Rattle.std.specs.Prelude.{◌≡◌, ℕ, ◌+◌, ◌*◌, ◌/◌, ◌%◌, ◌≤◌, length, true, Some, None, IfSome, if◌then◌else◌};
ghost use Rattle.word_mem.specs.Memory.{reaches, refused, word_at, with_word};
ghost use Rattle.word_mem.specs.Access.{IsByController};
ghost use Rattle.word_mem.specs.Views.{words_in, with_words_in, words_at, with_words};
ghost use Rattle.lent_words.specs.Lent.{lent_mem, most_lent};

use hc_memory::HcMemory;
use std::marker::{Brand, PhantomData};

/// Who lent the words, by the name of the loan.
pub trait Lender {
    ghost name: { ℕ };
}

impl Lender for Brand {
    ghost name = { 0 };
}

/// Words that someone lends.
#[derive(Drop)]
pub struct Loan<'a> {
    pub words: &'a mut [u32],
}

impl<'a> Loan<'a> {
    /// These words.
    pub fn of(words: &'a mut [u32]) -> Loan<'a>
        ensures same_reference { result.words.ghost_name ≡ words.entry.ghost_name }
        ensures words { result.words.now ≡ words.old }
    {
        Loan { words }
    }
}

/// Words that are lent to the controller from address 0 on: each whole block of them is Lent.
#[derive(Drop)]
pub struct Ram<'a, L: Lender> {
    words: &'a mut [u32],
    foreign: u64,
    lender: PhantomData<L>,
    ghost same: { words.ghost_name ≡ L.name },
    ghost few: { length words.now ≤ most_lent },
}

/// Copies the words from place `first` on into all of `into`.
#[tactic(auto, using(word_mem::proofs::Words::copied_out))]
fn copy_out(words: &[u32], first: usize, into: &mut [u32])
    requires { first + length into.old ≤ length words.now }
    ensures { into.new ≡ words_in words.now (4 * first) (length into.old) }
{
    into.copy_from_slice(&words[first..first + into.len()]);
}

/// Copies `from` over the words from place `first` on.
#[tactic(auto, using(word_mem::proofs::Words::copied_in))]
fn copy_in(words: &mut [u32], first: usize, from: &[u32])
    requires { first + length from.now ≤ length words.old }
    ensures { words.new ≡ with_words_in words.old (4 * first) from.now }
{
    words[first..first + from.len()].copy_from_slice(from);
}

impl<'a, L: Lender> Ram<'a, L> {
    /// The words of this loan, at most 1,073,741,816.
    pub fn of(loan: Loan<'a>) -> Ram<'a, L>
        requires name { loan.words.ghost_name ≡ L.name }
        requires few { length loan.words.now ≤ most_lent }
        ensures words { result.words.now ≡ loan.entry.words.now }
        ensures foreign { result.foreign ≡ 0 }
    {
        Ram {
            words: loan.words,
            foreign: 0,
            lender: PhantomData,
        }
    }

    /// The loan again.
    pub fn into_loan(self) -> Loan<'a>
        ensures same_reference { result.words.ghost_name ≡ L.name }
        ensures words { result.words.now ≡ self.entry.words.now }
    {
        Loan { words: self.words }
    }

    /// The place among the words of the one at the byte address `at`, where the controller may touch it; its block is whole.
    #[tactic(auto, using(crate::proofs::Reach::reaches_within, crate::proofs::Reach::reaches_past))]
    fn place(&self, at: u32) -> Option<usize>
        ensures place { result ≡ (if reaches (lent_mem self.now.words.now self.now.foreign) at then Some (at / 4) else None) }
        ensures within { IfSome result (λ place. place / 8 * 8 + 8 ≤ length self.now.words.now) }
        ensures lent { IfSome result (λ _. reaches (lent_mem self.now.words.now self.now.foreign) at ≡ true) }
    {
        if ((at / 32) as usize) < self.words.len() / 8 {
            return Some((at / 4) as usize);
        }
        None
    }

    /// Reads words in a row from the byte address `at` on, a multiple of 4.
    fn get_words(&self, at: u32, into: &mut [u32])
        requires aligned { at % 4 ≡ 0 }
        requires within { at / 4 + length into.old ≤ length self.now.words.now }
        ensures { into.new ≡ words_at (lent_mem self.now.words.now self.now.foreign) at (length into.old) }
    {
        copy_out(self.words, (at / 4) as usize, into);
    }

    /// Writes words in a row from the byte address `at` on, a multiple of 4.
    #[tactic(auto, using(crate::proofs::Reach::lent_written))]
    fn put_words(&mut self, at: u32, words: &[u32])
        requires aligned { at % 4 ≡ 0 }
        requires within { at / 4 + length words.now ≤ length self.old.words.now }
        ensures { lent_mem self.new.words.now self.new.foreign ≡ with_words (lent_mem self.old.words.now self.old.foreign) at words.now }
    {
        copy_in(self.words, (at / 4) as usize, words);
    }

    /// Counts a refusal.
    fn refuse(&mut self)
        ensures memory { lent_mem self.new.words.now self.new.foreign ≡ refused (lent_mem self.old.words.now self.old.foreign) }
        ensures only_lent { IsByController (lent_mem self.old.words.now self.old.foreign) (lent_mem self.new.words.now self.new.foreign) }
    {
        self.foreign = self.foreign.saturating_add(1);
    }
}

impl<'a, L: Lender> HcMemory for Ram<'a, L> {
    ghost mem = { λ r. lent_mem r.words.now r.foreign };

    fn hc_read(&mut self, at: u32) -> Option<u32> {
        match self.place(at) {
            Some(place) => Some(self.words[place]),
            None => {
                self.refuse();
                None
            }
        }
    }

    fn hc_write(&mut self, at: u32, v: u32) -> bool {
        match self.place(at) {
            Some(place) => {
                self.words[place] = v;
                true
            }
            None => {
                self.refuse();
                false
            }
        }
    }

    fn hc_read_words(&mut self, at: u32, into: &mut [u32]) -> bool {
        match self.place(at) {
            Some(_) => {
                self.get_words(at, into);
                true
            }
            None => {
                self.refuse();
                false
            }
        }
    }

    fn hc_write_words(&mut self, at: u32, words: &[u32]) -> bool {
        match self.place(at) {
            Some(_) => {
                self.put_words(at, words);
                true
            }
            None => {
                self.refuse();
                false
            }
        }
    }

    #[tactic(auto, using(crate::proofs::Reach::reaches_not_last))]
    fn ends(&self) {
        let _few = self.words.len();
    }
}

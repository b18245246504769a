//! A count of steps. It takes no bytes and its calls do nothing at run time: contracts say by it how many steps of some kind a call
//! takes at most. Which calls are steps, the crate says that counts them.
//!
//! `Steps::take` counts one step, `Steps::begin` opens a count at none.
//!
//! What takes steps names by a type who may count them (`CountedBy`). Code that leaves this type open knows of one ledger alone, the one
//! that it was handed: no count that it begins itself serves there.
#![tactic(auto)]

ghost use Rattle.std.specs.Prelude.{◌≡◌, ◌+◌, ◌<◌};

use std::marker::Model;
use std::sync::ledger::{Blank, Book, Ledger, Share};

/// A step of what has this mark may be counted on the ledger.
pub trait CountedBy<L: Ledger> {}

/// The mark of what any ledger may count.
#[derive(Clone, Copy, Debug)]
pub struct AnyLedger;

impl<L: Ledger> CountedBy<L> for AnyLedger {}

/// How many steps were taken. Only `take` changes it.
#[derive(Drop)]
pub struct Steps<L: Ledger> {
    book: Book<L>,
    share: Share<L>,
}

impl<L: Ledger> Model for Steps<L> {
    ghost use Rattle.std.specs.Prelude.{ℕ, ◌<◌};

    ghost Value = { ℕ };

    ghost view = { λ s. s.book.total };

    ghost invariant = { λ s. 0 < s.share.parts };
}

impl<L: Ledger> Steps<L> {
    /// A count at none. A caller that counts for nobody picks `Brand` for the ledger and `Blank::new(1)` for its blank.
    pub fn begin(blank: Blank) -> Steps<L>
        requires name { blank.name ≡ L.name }
        requires parts { blank.parts ≡ L.parts }
        requires some { 0 < L.parts }
        ensures { result ≡ 0 }
    {
        let (book, share) = blank.open::<L>();
        Steps { book, share }
    }

    /// Counts one step.
    pub fn take(&mut self)
        ensures { self.new ≡ self.old + 1 }
    {
        self.book.add(&mut self.share, 1);
    }
}

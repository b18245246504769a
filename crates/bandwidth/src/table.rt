ghost use Rattle.std.specs.Prelude.{◌≡◌, ◌+◌, ◌-◌, ◌^◌, ◌<◌, ◌≤◌, length, slice_index, slice_set, replicate, IfOk};

use bandwidth_steps::{AnyLedger, CountedBy, Steps};
use std::alloc::Global;
use std::marker::{Model, PhantomData};
use std::sync::ledger::Ledger;
use usb_base::Memory;

/// A table of sums, which contracts see as the list of its cells. A step is one reading or one writing of a cell, on a
/// ledger that may count them.
#[derive(Debug, Drop)]
pub struct Table<C = AnyLedger> {
    cells: Vec<u64>,
    counted: PhantomData<C>,
}

impl<C> Model for Table<C> {
    ghost use Rattle.std.specs.Prelude.{List, ℕ};

    ghost Value = { List ℕ };

    ghost view = { λ t. t.cells.items };
}

impl Table {
    /// A table of so many cells, each 0.
    pub(crate) fn zeros(alloc: Global, cells: usize) -> Result<Table, Memory>
        ensures { IfOk result (λ t. t ≡ replicate cells 0) }
    {
        let cells = vec![in alloc; 0u64; cells]?;
        Ok(Table {
            cells,
            counted: PhantomData,
        })
    }
}

impl<C> Table<C> {
    /// Reads a cell, in one step.
    #[inline(always)]
    pub fn get<L: Ledger>(&self, at: u32, steps: &mut Steps<L>) -> u64
    where
        C: CountedBy<L>,
        requires { at < length self.now }
        ensures cell { result ≡ slice_index self.now at }
        ensures step { steps.new ≡ steps.old + 1 }
    {
        steps.take();
        self.cells[at as usize]
    }

    /// Adds to a cell, in one step.
    pub fn add<L: Ledger>(&mut self, at: u32, by: u64, steps: &mut Steps<L>)
    where
        C: CountedBy<L>,
        requires cell { at < length self.old }
        requires fits { slice_index self.old at + by < 2 ^ 64 }
        ensures cells { self.new ≡ slice_set self.old at (slice_index self.old at + by) }
        ensures step { steps.new ≡ steps.old + 1 }
    {
        steps.take();
        self.cells[at as usize] += by;
    }
}

impl Table {
    /// Takes from a cell.
    pub fn sub(&mut self, at: u32, by: u64)
        requires cell { at < length self.old }
        requires enough { by ≤ slice_index self.old at }
        ensures { self.new ≡ slice_set self.old at (slice_index self.old at - by) }
    {
        self.cells[at as usize] -= by;
    }
}

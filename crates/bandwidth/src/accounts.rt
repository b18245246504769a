ghost use Rattle.std.specs.Prelude.{◌≡◌, ℕ, ◌+◌, ◌*◌, ◌<◌, ◌≤◌, List, [], length, not, nat_eq, nat_le};
ghost use Rattle.std.specs.Prelude.{true, false, filter, slice_index, Some, None, is_some, IfOk, IfSome, IfNone, IsTrue, ◌↔◌};
ghost use Rattle.std.specs.List.{list_any, position};
ghost use Rattle.std.specs.Option.{option_copied};
ghost use Rattle.usb_base.specs.Limits.{microframe_budget};
ghost use Rattle.bandwidth.specs.Placements.{IsWant, IsPlace};
ghost use Rattle.bandwidth.specs.Sums.{Fits, translator_of};
ghost use Rattle.bandwidth.specs.Admission.{joined, keeps, peak};
ghost use Rattle.bandwidth.specs.Shapes.{turns, cells, cost_cells, laid_cells, IsShape, IsOf};
ghost use Rattle.bandwidth.specs.Tables.{IsPool, HadMore, AreWithin, serves, tables_of, pool_size};

use crate::asks::{byte_times_of, costs_of, is_served_by, time_in_frame, translator_for};
use crate::hub_pool::HubPool;
use crate::hub_sums::HubSums;
use crate::limits::{first_sum, least_cost, peak_within};
use crate::placements::{Placed, Placement, Want};
use crate::shapes::Shape;
use crate::table::Table;
use crate::tables::{add_microframes, sub_microframes};
use crate::translators::Translator;
use bandwidth_steps::{AnyLedger, CountedBy, Steps};
use std::alloc::Global;
use std::marker::Model;
use std::sync::ledger::Ledger;
use usb_base::Memory;
use usb_base::limits::FRAME_BUDGET;

/// 16 translators for each of the 128 addresses of hubs.
const TRANSLATORS: u32 = 2048;

/// What is placed, with a table for each sum that an admission asks for.
#[derive(Debug, Drop)]
pub(crate) struct Accounts<C = AnyLedger> {
    room: u32,
    placed: Vec<Placed>,
    loads: Table<C>,
    pool: HubPool<C>,
}

impl<C> Model for Accounts<C> {
    ghost use Rattle.std.specs.Prelude.{◌≤◌, vec_capacity};
    ghost use Rattle.bandwidth.specs.Tables.{Book, IsBook};

    ghost Value = { Book };

    ghost view = { λ a. record { room = a.room; placed = a.placed.items; loads = a.loads; pool = a.pool } };

    ghost invariant = { λ a. IsBook (record { room = a.room; placed = a.placed.items; loads = a.loads; pool = a.pool }) × (a.room ≤ vec_capacity a.placed) };
}

impl Accounts {
    ghost use Rattle.bandwidth.specs.Tables.{IsBook};

    /// An empty book with room for so many, and with tables for as many translators as may need them at once.
    pub(crate) fn build(alloc: Global, room: u32) -> Result<Accounts, Memory>
        ensures { IfOk result (λ a. (a.room ≡ room) × (a.placed ≡ [])) }
    {
        let placed = Vec::with_capacity(alloc, room as usize)?;
        let loads = Table::zeros(alloc, 8192)?;
        let pool = HubPool::build(alloc, room.min(TRANSLATORS))?;
        Ok(Accounts {
            room,
            placed,
            loads,
            pool,
        })
    }

    /// The placed endpoints, in the order of admission. What is counted on a ledger doesn't go through them.
    pub(crate) fn placed(&self) -> &[Placed]
        ensures same { result.now ≡ self.now.placed }
        ensures book { IsBook self.now }
    {
        self.placed.as_slice()
    }
}

impl<C> Accounts<C> {
    ghost use Rattle.bandwidth.specs.Tables.{IsBook, BelowFits, Tells, tables_at};

    /// Whether as many are placed as there is room for.
    pub(crate) fn is_full(&self) -> bool
        ensures full { result ≡ nat_le self.now.room (length self.now.placed) }
        ensures book { IsBook self.now }
    {
        self.placed.len() >= self.room as usize
    }

    /// The bus time of each of the 8,192 microframes, in picoseconds.
    pub(crate) fn loads(&self) -> &Table<C>
        ensures same { result.now ≡ self.now.loads }
        ensures book { IsBook self.now }
    {
        &self.loads
    }

    /// The tables of a translator, if something is placed below it.
    pub(crate) fn below(&self, translator: Translator) -> Option<&HubSums<C>>
        ensures tables { option_copied result ≡ tables_of self.now.pool translator }
        ensures number { translator < 2048 }
        ensures book { IsBook self.now }
    {
        self.pool.below(translator)
    }

    /// Whether a placement keeps the budgets below a translator.
    #[inline(always)]
    fn translator_keeps<L: Ledger>(
        &self,
        translator: Translator,
        want: &Want,
        placement: &Placement,
        shape: &Shape,
        steps: &mut Steps<L>,
    ) -> bool
    where
        C: CountedBy<L>,
        requires shape { IsShape want.now shape.now }
        requires place { IsOf shape.now placement.now }
        ensures fits { (IsTrue result) ↔ (BelowFits (tables_at self.now.pool (Some translator)) shape.now.time (slice_index shape.now.bytes.each) placement.now) }
        ensures number { translator < 2048 }
        ensures book { IsBook self.now }
        ensures steps { steps.new ≤ steps.old + turns placement.now.period * (laid_cells want.now + 1) }
    {
        match self.below(translator) {
            Some(sums) => sums.keep(placement, shape.time, &shape.bytes, steps),
            None => shape.time <= FRAME_BUDGET,
        }
    }

    /// Whether a placement keeps the budgets below its translator, if it has one.
    #[inline(always)]
    fn below_keeps<L: Ledger>(
        &self,
        want: &Want,
        placement: &Placement,
        shape: &Shape,
        steps: &mut Steps<L>,
    ) -> bool
    where
        C: CountedBy<L>,
        requires want { IsWant want.now }
        requires shape { IsShape want.now shape.now }
        requires place { IsOf shape.now placement.now }
        ensures tells { Tells self.now want.now placement.now result }
        ensures book { IsBook self.now }
        ensures steps { steps.new ≤ steps.old + turns placement.now.period * (laid_cells want.now + 1) }
        ensures alone { is_some want.now.hub ≡ false → steps.new ≡ steps.old }
    {
        let _room = self.room;
        let Some(translator) = translator_for(want) else {
            return true;
        };
        self.translator_keeps(translator, want, placement, shape, steps)
    }

    /// A bus time, in picoseconds, that the greatest microframe sum over a placement's own microframes isn't below. At high speed it is the
    /// sum of the first of them.
    #[inline(always)]
    pub(crate) fn least_peak<L: Ledger>(
        &self,
        want: &Want,
        placement: &Placement,
        shape: &Shape,
        steps: &mut Steps<L>,
    ) -> u64
    where
        C: CountedBy<L>,
        requires shape { IsShape want.now shape.now }
        requires place { IsOf shape.now placement.now }
        ensures peak { result ≤ peak self.now.placed want.now placement.now }
        ensures steps { steps.new ≤ steps.old + 1 }
        ensures below { is_some want.now.hub ≡ true → steps.new ≤ steps.old }
    {
        if want.hub.is_some() {
            return least_cost(&shape.costs);
        }
        first_sum(&self.loads, placement.phase, &shape.costs, steps)
    }

    /// The greatest microframe sum over a placement's own microframes, with it included, where the placement keeps every budget beside
    /// what is placed and that sum doesn't pass the limit; `None` exactly where it breaks a budget or passes the limit.
    #[inline(always)]
    pub(crate) fn kept_peak<L: Ledger>(
        &self,
        want: &Want,
        placement: &Placement,
        shape: &Shape,
        limit: u64,
        steps: &mut Steps<L>,
    ) -> Option<u64>
    where
        C: CountedBy<L>,
        requires want { IsWant want.now }
        requires shape { IsShape want.now shape.now }
        requires place { IsOf shape.now placement.now }
        requires limit { limit ≤ microframe_budget }
        ensures keeps { IfSome result (λ top. keeps self.now.placed want.now placement.now ≡ true) }
        ensures peak { IfSome result (λ top. top ≡ peak self.now.placed want.now placement.now) }
        ensures none { IfNone result (keeps self.now.placed want.now placement.now ≡ true → limit < peak self.now.placed want.now placement.now) }
        ensures steps { steps.new ≤ steps.old + turns placement.now.period * cells want.now }
        ensures alone { is_some want.now.hub ≡ false → steps.new ≤ steps.old + turns placement.now.period * cost_cells want.now }
    {
        let Some(peak) = peak_within(&self.loads, placement, &shape.costs, limit, steps) else {
            return None;
        };
        if !self.below_keeps(want, placement, shape, steps) {
            return None;
        }
        Some(peak)
    }

    /// Places one more.
    pub(crate) fn join<L: Ledger>(
        &mut self,
        want: &Want,
        placement: &Placement,
        shape: &Shape,
        steps: &mut Steps<L>,
    )
    where
        C: CountedBy<L>,
        requires room { length self.old.placed < self.old.room }
        requires want { IsWant want.now }
        requires shape { IsShape want.now shape.now }
        requires place { IsOf shape.now placement.now }
        requires fits { Fits (joined self.old.placed want.now placement.now) }
        requires id { list_any (λ x. nat_eq x.want.id want.now.id) self.old.placed ≡ false }
        ensures room { self.new.room ≡ self.old.room }
        ensures placed { self.new.placed ≡ joined self.old.placed want.now placement.now }
        ensures steps { steps.new ≤ steps.old + turns placement.now.period * cells want.now }
    {
        add_microframes(&mut self.loads, placement, &shape.costs, steps);
        add_below(&mut self.pool, want, placement, shape, steps);
        self.placed.push_reserved(Placed {
            want: *want,
            placement: *placement,
        });
    }
}

impl Accounts {
    ghost use Rattle.bandwidth.specs.Tables.{IsBook};

    /// Where an id stands in the list.
    fn place(&self, id: u32) -> Option<usize>
        ensures place { result ≡ position (λ x. nat_eq x.want.id id) self.now.placed }
        ensures book { IsBook self.now }
    {
        self.placed.iter().position(|x| x.want.id == id)
    }

    /// Takes out what stands under an id.
    pub(crate) fn remove(&mut self, id: u32)
        ensures room { self.new.room ≡ self.old.room }
        ensures placed { self.new.placed ≡ filter (λ x. not (nat_eq x.want.id id)) self.old.placed }
    {
        let Some(i) = self.place(id) else {
            return;
        };
        let x = self.placed[i];
        sub_microframes(
            &mut self.loads,
            &x.placement,
            &costs_of(&x.want, &x.placement),
        );
        self.placed.remove(i);
        sub_below(&mut self.pool, &self.placed, &x.want, &x.placement);
    }
}

/// Adds a placement to the tables of its translator, if it has one.
fn add_below<L: Ledger, C: CountedBy<L>>(
    pool: &mut HubPool<C>,
    want: &Want,
    placement: &Placement,
    shape: &Shape,
    steps: &mut Steps<L>,
)
    requires want { IsWant want.now }
    requires shape { IsShape want.now shape.now }
    requires place { IsOf shape.now placement.now }
    requires free { (n : ℕ) → n < 2048 → translator_of want.now ≡ Some n → tables_of pool.old n ≡ None → 1 ≤ length pool.old.free }
    requires within { (n : ℕ) → n < 2048 → translator_of want.now ≡ Some n → IfSome (tables_of pool.old n) AreWithin }
    ensures pool { (placed : List Placed) → IsPool placed pool.old → IsPool (joined placed want.now placement.now) pool.new }
    ensures size { pool_size pool.new ≡ pool_size pool.old }
    ensures steps { steps.new ≤ steps.old + turns placement.now.period * (laid_cells want.now + 1) }
{
    let Some(translator) = translator_for(want) else {
        return;
    };
    let _number = translator.get();
    pool.add(translator, placement, shape.time, &shape.bytes, steps);
}

/// Whether something is placed below a translator.
fn is_served(placed: &[Placed], translator: Translator) -> bool
    ensures served { result ≡ serves placed.now translator }
    ensures number { translator < 2048 }
{
    placed.iter().any(|x| is_served_by(&x.want, translator))
}

/// Takes a placement out of the tables of its translator, if it has one, and frees them if nothing else is placed below it.
fn sub_below(pool: &mut HubPool, placed: &[Placed], want: &Want, placement: &Placement)
    requires want { IsWant want.now }
    requires place { IsPlace placement.now }
    requires was { HadMore (record { want = want.now; placement = placement.now }) placed.now pool.old }
    ensures pool { IsPool placed.now pool.new }
    ensures size { pool_size pool.new ≡ pool_size pool.old }
{
    let Some(translator) = translator_for(want) else {
        return;
    };
    let served = is_served(placed, translator);
    pool.sub(
        translator,
        placement,
        time_in_frame(want),
        &byte_times_of(want, placement),
    );
    if served {
        return;
    }
    pool.give_back(translator);
}

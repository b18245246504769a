ghost use Rattle.std.specs.Prelude.{◌≡◌, ◌+◌, ◌-◌, ◌*◌, ◌<◌, ◌≤◌, true, length, slice_index, slice_set, vec_capacity, All, Some, None, is_some, IfOk, IfSome};
ghost use Rattle.std.specs.Option.{option_copied};
ghost use Rattle.bandwidth.specs.Placements.{IsPlace};
ghost use Rattle.bandwidth.specs.Shapes.{turns, IsAmounts};
ghost use Rattle.bandwidth.specs.Tables.{AreZero};

use crate::hub_sums::HubSums;
use crate::placements::Placement;
use crate::shapes::Amounts;
use crate::translators::Translator;
use bandwidth_steps::{AnyLedger, CountedBy, Steps};
use std::alloc::Global;
use std::marker::Model;
use std::sync::ledger::Ledger;
use usb_base::Memory;

/// The tables that translators have, by their numbers, and those that none has, whose cells are all 0.
#[derive(Debug, Drop)]
pub(crate) struct HubPool<C = AnyLedger> {
    hubs: Vec<Option<HubSums<C>>>,
    free: Vec<HubSums<C>>,
}

impl<C> Model for HubPool<C> {
    ghost use Rattle.std.specs.Prelude.{vec_capacity};
    ghost use Rattle.bandwidth.specs.Tables.{Pool, IsRoomy};

    ghost Value = { Pool };

    ghost view = { λ p. record { hubs = p.hubs.items; free = p.free.items } };

    ghost invariant = { λ p. IsRoomy (record { hubs = p.hubs.items; free = p.free.items }) (vec_capacity p.free) };
}

/// So many tables whose cells are all 0.
fn zero_tables(alloc: Global, size: usize) -> Result<Vec<HubSums>, Memory>
    ensures count { IfOk result (λ v. length v.items ≡ size) }
    ensures zeros { IfOk result (λ v. All AreZero v.items) }
    ensures room { IfOk result (λ v. size ≤ vec_capacity v) }
{
    let mut free = Vec::with_capacity(alloc, size)?;
    for _k in 0..size {
        let sums = HubSums::zeros(alloc)?;
        free.push_reserved(sums);
    }
    Ok(free)
}

/// No tables at any of the 2,048 translators.
fn no_tables(alloc: Global) -> Result<Vec<Option<HubSums>>, Memory>
    ensures count { IfOk result (λ v. length v.items ≡ 2048) }
    ensures none { IfOk result (λ v. All (λ o. o ≡ None) v.items) }
{
    let mut hubs = Vec::with_capacity(alloc, 2048)?;
    for _k in 0..2048usize {
        hubs.push_reserved(None);
    }
    Ok(hubs)
}

impl HubPool {
    /// So many tables, and no translator that has any.
    pub(crate) fn build(alloc: Global, size: u32) -> Result<HubPool, Memory>
        ensures count { IfOk result (λ p. length p.hubs ≡ 2048) }
        ensures none { IfOk result (λ p. All (λ o. o ≡ None) p.hubs) }
        ensures size { IfOk result (λ p. length p.free ≡ size) }
    {
        let free = zero_tables(alloc, size as usize)?;
        let hubs = no_tables(alloc)?;
        Ok(HubPool { hubs, free })
    }
}

impl<C> HubPool<C> {
    ghost use Rattle.bandwidth.specs.Tables.{AreWithin, Gives, AddsAt, tables_of, pool_size};

    /// The tables of a translator, if it has any.
    #[inline(always)]
    pub(crate) fn below(&self, translator: Translator) -> Option<&HubSums<C>>
        ensures tables { option_copied result ≡ tables_of self.now translator }
        ensures number { translator < 2048 }
        ensures count { length self.now.hubs ≡ 2048 }
    {
        self.hubs[translator.get() as usize].as_ref()
    }

    /// Gives a translator without tables those that were freed last.
    fn give(&mut self, translator: Translator)
        requires none { tables_of self.old translator ≡ None }
        requires free { 1 ≤ length self.old.free }
        ensures gives { Gives self.old self.new translator }
        ensures size { pool_size self.new ≡ pool_size self.old }
    {
        let sums = self.free.pop();
        self.hubs[translator.get() as usize] = sums;
    }

    /// Adds a placement to the tables that its translator has.
    fn add_to<L: Ledger>(
        &mut self,
        translator: Translator,
        placement: &Placement,
        time: u64,
        bytes: &Amounts,
        steps: &mut Steps<L>,
    )
    where
        C: CountedBy<L>,
        requires some { is_some (tables_of self.old translator) ≡ true }
        requires within { IfSome (tables_of self.old translator) AreWithin }
        requires place { IsPlace placement.now }
        requires time { time ≤ 1000000000000 }
        requires bytes { IsAmounts bytes.now }
        ensures adds { AddsAt self.old self.new translator time (slice_index bytes.now.each) placement.now }
        ensures number { translator < 2048 }
        ensures size { pool_size self.new ≡ pool_size self.old }
        ensures steps { steps.new ≤ steps.old + turns placement.now.period * (bytes.now.to - bytes.now.from + 1) }
    {
        if let Some(sums) = &mut self.hubs[translator.get() as usize] {
            sums.add(placement, time, bytes, steps);
        }
    }

    /// Adds a placement to the tables of its translator, which gets some if it has none.
    pub(crate) fn add<L: Ledger>(
        &mut self,
        translator: Translator,
        placement: &Placement,
        time: u64,
        bytes: &Amounts,
        steps: &mut Steps<L>,
    )
    where
        C: CountedBy<L>,
        requires free { tables_of self.old translator ≡ None → 1 ≤ length self.old.free }
        requires within { IfSome (tables_of self.old translator) AreWithin }
        requires place { IsPlace placement.now }
        requires time { time ≤ 1000000000000 }
        requires bytes { IsAmounts bytes.now }
        ensures adds { AddsAt self.old self.new translator time (slice_index bytes.now.each) placement.now }
        ensures number { translator < 2048 }
        ensures size { pool_size self.new ≡ pool_size self.old }
        ensures steps { steps.new ≤ steps.old + turns placement.now.period * (bytes.now.to - bytes.now.from + 1) }
    {
        if self.below(translator).is_some() {
            self.add_to(translator, placement, time, bytes, steps);
            return;
        }
        self.give(translator);
        self.add_to(translator, placement, time, bytes, steps);
    }
}

impl HubPool {
    ghost use Rattle.bandwidth.specs.Tables.{Holds, TakesAt, tables_of, pool_size};

    /// Takes a placement out of the tables of its translator.
    pub(crate) fn sub(
        &mut self,
        translator: Translator,
        placement: &Placement,
        time: u64,
        bytes: &[u64; 8],
    )
        requires some { is_some (tables_of self.old translator) ≡ true }
        requires place { IsPlace placement.now }
        requires holds { IfSome (tables_of self.old translator) (Holds time (slice_index bytes.now) placement.now) }
        ensures takes { TakesAt self.old self.new translator time (slice_index bytes.now) placement.now }
        ensures size { pool_size self.new ≡ pool_size self.old }
    {
        if let Some(sums) = &mut self.hubs[translator.get() as usize] {
            sums.sub(placement, time, bytes);
        }
    }

    /// Frees the tables of a translator, whose cells are all 0.
    pub(crate) fn give_back(&mut self, translator: Translator)
        requires some { is_some (tables_of self.old translator) ≡ true }
        requires zero { IfSome (tables_of self.old translator) AreZero }
        ensures hubs { self.new.hubs ≡ slice_set self.old.hubs translator None }
        ensures size { pool_size self.new ≡ pool_size self.old }
    {
        if let Some(sums) = self.hubs[translator.get() as usize].take() {
            self.free.push_reserved(sums);
        }
    }
}

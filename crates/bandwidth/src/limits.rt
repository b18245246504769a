ghost use Rattle.std.specs.Prelude.{◌≡◌, ℕ, ◌+◌, ◌-◌, ◌*◌, ◌/◌, ◌%◌, ◌<◌, ◌≤◌, true, length, slice_index, IsTrue, ◌↔◌, IfSome, IfNone};
ghost use Rattle.usb_base.specs.Limits.{frame_list_length};
ghost use Rattle.bandwidth.specs.Placements.{IsPlace};
ghost use Rattle.bandwidth.specs.Shapes.{turns, IsAmounts};
ghost use Rattle.bandwidth.specs.Sums.{is_active};
ghost use Rattle.bandwidth.specs.Tables.{CellsWithin, FrameWithin};

use crate::frames::{active_frame, turns};
use crate::placements::Placement;
use crate::shapes::Amounts;
use crate::table::Table;
use bandwidth_steps::{CountedBy, Steps};
use std::sync::ledger::Ledger;

/// Whether each of the eight microframes of one frame stays within the limit with its amount, where the cells alone do.
#[inline(always)]
fn frame_fits<L: Ledger, C: CountedBy<L>>(
    table: &Table<C>,
    frame: u32,
    amounts: &Amounts,
    limit: u64,
    steps: &mut Steps<L>,
) -> bool
    requires cells { length table.now ≡ 8192 }
    requires frame { frame < frame_list_length }
    requires room { (u : ℕ) → u < 8192 → slice_index table.now u ≤ limit }
    requires limit { limit ≤ 1000000000000 }
    requires amounts { IsAmounts amounts.now }
    ensures fits { IsTrue result ↔ ((m : ℕ) → m < 8 → slice_index table.now (8 * frame + m) + slice_index amounts.now.each m ≤ limit) }
    ensures steps { steps.new ≤ steps.old + (amounts.now.to - amounts.now.from) }
{
    for m in amounts.from..amounts.to {
        if limit < table.get(8 * frame + m as u32, steps) + amounts.each[m as usize] {
            return false;
        }
    }
    true
}

/// Whether each microframe of each active frame of a placement stays within the limit with its amount, where the cells alone do.
#[inline(always)]
pub(crate) fn microframes_fit<L: Ledger, C: CountedBy<L>>(
    table: &Table<C>,
    placement: &Placement,
    amounts: &Amounts,
    limit: u64,
    steps: &mut Steps<L>,
) -> bool
    requires cells { length table.now ≡ 8192 }
    requires place { IsPlace placement.now }
    requires room { (u : ℕ) → u < 8192 → slice_index table.now u ≤ limit }
    requires limit { limit ≤ 1000000000000 }
    requires amounts { IsAmounts amounts.now }
    ensures fits { IsTrue result ↔ ((u : ℕ) → u < 8192 → is_active placement.now (u / 8) ≡ true → slice_index table.now u + slice_index amounts.now.each (u % 8) ≤ limit) }
    ensures steps { steps.new ≤ steps.old + turns placement.now.period * (amounts.now.to - amounts.now.from) }
{
    for k in 0..turns(placement) {
        if !frame_fits(table, active_frame(placement, k), amounts, limit, steps) {
            return false;
        }
    }
    true
}

/// Whether each active frame of a placement stays within the limit with an amount.
#[inline(always)]
pub(crate) fn frames_fit<L: Ledger, C: CountedBy<L>>(
    table: &Table<C>,
    placement: &Placement,
    amount: u64,
    limit: u64,
    steps: &mut Steps<L>,
) -> bool
    requires cells { length table.now ≡ frame_list_length }
    requires place { IsPlace placement.now }
    requires room { (f : ℕ) → f < frame_list_length → slice_index table.now f ≤ 1000000000000 }
    requires small { amount ≤ 1000000000000 }
    ensures fits { IsTrue result ↔ ((f : ℕ) → f < frame_list_length → is_active placement.now f ≡ true → slice_index table.now f + amount ≤ limit) }
    ensures steps { steps.new ≤ steps.old + turns placement.now.period }
{
    for k in 0..turns(placement) {
        if limit < table.get(active_frame(placement, k), steps) + amount {
            return false;
        }
    }
    true
}

/// The greater of `so_far` and a sum with an amount, where that isn't 0.
#[inline(always)]
fn cell_peak(sum: u64, amount: u64, so_far: u64) -> u64
    requires sum { sum ≤ 1000000000000 }
    requires small { amount ≤ 1000000000000 }
    ensures at_least { so_far ≤ result }
    ensures covers { 1 ≤ amount → sum + amount ≤ result }
    ensures least { (b : ℕ) → so_far ≤ b → (1 ≤ amount → sum + amount ≤ b) → result ≤ b }
{
    if amount > 0 {
        return so_far.max(sum + amount);
    }
    so_far
}

/// An amount that no bound of all of them is below: that of the first or of the last microframe.
#[inline(always)]
pub(crate) fn least_cost(amounts: &Amounts) -> u64
    requires { IsAmounts amounts.now }
    ensures { (b : ℕ) → ((m : ℕ) → m < 8 → slice_index amounts.now.each m ≤ b) → result ≤ b }
{
    if amounts.from >= amounts.to {
        return 0;
    }
    amounts.each[amounts.from as usize].max(amounts.each[(amounts.to - 1) as usize])
}

/// The sum of the first microframe of a frame that may have an amount, with it; 0 where it has none.
#[inline(always)]
pub(crate) fn first_sum<L: Ledger, C: CountedBy<L>>(
    table: &Table<C>,
    frame: u16,
    amounts: &Amounts,
    steps: &mut Steps<L>,
) -> u64
    requires cells { length table.now ≡ 8192 }
    requires frame { frame < frame_list_length }
    requires room { (u : ℕ) → u < 8192 → slice_index table.now u ≤ 1000000000000 }
    requires amounts { IsAmounts amounts.now }
    ensures least { (b : ℕ) → FrameWithin table.now frame (slice_index amounts.now.each) b → result ≤ b }
    ensures steps { steps.new ≤ steps.old + 1 }
{
    if amounts.from >= amounts.to {
        return 0;
    }
    let sum = table.get(8 * frame as u32 + amounts.from as u32, steps);
    cell_peak(sum, amounts.each[amounts.from as usize], 0)
}

/// The greatest of `so_far` and the sums of one frame's microframes that have an amount, with it.
#[inline(always)]
fn frame_peak<L: Ledger, C: CountedBy<L>>(
    table: &Table<C>,
    frame: u32,
    amounts: &Amounts,
    so_far: u64,
    steps: &mut Steps<L>,
) -> u64
    requires cells { length table.now ≡ 8192 }
    requires frame { frame < frame_list_length }
    requires room { (u : ℕ) → u < 8192 → slice_index table.now u ≤ 1000000000000 }
    requires amounts { IsAmounts amounts.now }
    ensures at_least { so_far ≤ result }
    ensures covers { FrameWithin table.now frame (slice_index amounts.now.each) result }
    ensures least { (b : ℕ) → so_far ≤ b → FrameWithin table.now frame (slice_index amounts.now.each) b → result ≤ b }
    ensures steps { steps.new ≤ steps.old + (amounts.now.to - amounts.now.from) }
{
    let mut peak = so_far;
    for m in amounts.from..amounts.to {
        let sum = table.get(8 * frame + m as u32, steps);
        peak = cell_peak(sum, amounts.each[m as usize], peak);
    }
    peak
}

/// The greatest sum of the microframes that have an amount, with it, over a placement's active frames; `None` exactly where one passes
/// the limit.
#[inline(always)]
pub(crate) fn peak_within<L: Ledger, C: CountedBy<L>>(
    table: &Table<C>,
    placement: &Placement,
    amounts: &Amounts,
    limit: u64,
    steps: &mut Steps<L>,
) -> Option<u64>
    requires cells { length table.now ≡ 8192 }
    requires place { IsPlace placement.now }
    requires room { (u : ℕ) → u < 8192 → slice_index table.now u ≤ 1000000000000 }
    requires amounts { IsAmounts amounts.now }
    ensures none { IfNone result (CellsWithin table.now (slice_index amounts.now.each) placement.now limit → ⊥) }
    ensures limit { IfSome result (λ peak. peak ≤ limit) }
    ensures covers { IfSome result (λ peak. CellsWithin table.now (slice_index amounts.now.each) placement.now peak) }
    ensures least { IfSome result (λ peak. (b : ℕ) → CellsWithin table.now (slice_index amounts.now.each) placement.now b → peak ≤ b) }
    ensures steps { steps.new ≤ steps.old + turns placement.now.period * (amounts.now.to - amounts.now.from) }
{
    let mut peak = 0;
    for k in 0..turns(placement) {
        peak = frame_peak(table, active_frame(placement, k), amounts, peak, steps);
        if peak > limit {
            return None;
        }
    }
    Some(peak)
}

ghost use Rattle.std.specs.Prelude.{◌≡◌, ℕ, ◌+◌, ◌-◌, ◌*◌, ◌/◌, ◌%◌, ◌<◌, ◌≤◌, true, length, slice_index, nat_eq, if◌then◌else◌, IsTrue, ◌↔◌};
ghost use Rattle.usb_base.specs.Limits.{frame_list_length};
ghost use Rattle.bandwidth.specs.Placements.{IsPlace};
ghost use Rattle.bandwidth.specs.Shapes.{turns, IsAmounts};
ghost use Rattle.bandwidth.specs.Sums.{is_active};

use crate::frames::{active_frame, turns};
use crate::placements::Placement;
use crate::shapes::Amounts;
use crate::table::Table;
use bandwidth_steps::{CountedBy, Steps};
use std::sync::ledger::Ledger;

/// Adds the amounts of the eight microframes to those of one frame.
fn add_in_frame<L: Ledger, C: CountedBy<L>>(
    table: &mut Table<C>,
    frame: u32,
    amounts: &Amounts,
    steps: &mut Steps<L>,
)
    requires cells { length table.old ≡ 8192 }
    requires frame { frame < frame_list_length }
    requires room { (m : ℕ) → m < 8 → slice_index table.old (8 * frame + m) ≤ 1000000000000 }
    requires amounts { IsAmounts amounts.now }
    ensures cells { length table.new ≡ 8192 }
    ensures sums { (u : ℕ) → u < 8192 → slice_index table.new u ≡ slice_index table.old u + (if nat_eq (u / 8) frame then slice_index amounts.now.each (u % 8) else 0) }
    ensures steps { steps.new ≤ steps.old + (amounts.now.to - amounts.now.from) }
{
    for m in amounts.from..amounts.to {
        table.add(8 * frame + m as u32, amounts.each[m as usize], steps);
    }
}

/// Adds the amounts of the eight microframes of a frame to each active frame of a placement.
pub(crate) fn add_microframes<L: Ledger, C: CountedBy<L>>(
    table: &mut Table<C>,
    placement: &Placement,
    amounts: &Amounts,
    steps: &mut Steps<L>,
)
    requires cells { length table.old ≡ 8192 }
    requires place { IsPlace placement.now }
    requires room { (u : ℕ) → u < 8192 → slice_index table.old u ≤ 1000000000000 }
    requires amounts { IsAmounts amounts.now }
    ensures cells { length table.new ≡ 8192 }
    ensures sums { (u : ℕ) → u < 8192 → slice_index table.new u ≡ slice_index table.old u + (if is_active placement.now (u / 8) then slice_index amounts.now.each (u % 8) else 0) }
    ensures steps { steps.new ≤ steps.old + turns placement.now.period * (amounts.now.to - amounts.now.from) }
{
    for k in 0..turns(placement) {
        add_in_frame(table, active_frame(placement, k), amounts, steps);
    }
}

/// Adds an amount to each active frame of a placement.
pub(crate) fn add_frames<L: Ledger, C: CountedBy<L>>(
    table: &mut Table<C>,
    placement: &Placement,
    amount: u64,
    steps: &mut Steps<L>,
)
    requires cells { length table.old ≡ frame_list_length }
    requires place { IsPlace placement.now }
    requires room { (f : ℕ) → f < frame_list_length → slice_index table.old f ≤ 1000000000000 }
    requires small { amount ≤ 1000000000000 }
    ensures cells { length table.new ≡ frame_list_length }
    ensures sums { (f : ℕ) → f < frame_list_length → slice_index table.new f ≡ slice_index table.old f + (if is_active placement.now f then amount else 0) }
    ensures steps { steps.new ≤ steps.old + turns placement.now.period }
{
    for k in 0..turns(placement) {
        table.add(active_frame(placement, k), amount, steps);
    }
}

/// Takes the amounts of the eight microframes from those of one frame.
fn sub_in_frame(table: &mut Table, frame: u32, amounts: &[u64; 8])
    requires cells { length table.old ≡ 8192 }
    requires frame { frame < frame_list_length }
    requires enough { (m : ℕ) → m < 8 → slice_index amounts.now m ≤ slice_index table.old (8 * frame + m) }
    ensures cells { length table.new ≡ 8192 }
    ensures sums { (u : ℕ) → u < 8192 → slice_index table.old u ≡ slice_index table.new u + (if nat_eq (u / 8) frame then slice_index amounts.now (u % 8) else 0) }
{
    for m in 0..8u8 {
        table.sub(8 * frame + m as u32, amounts[m as usize]);
    }
}

/// Takes the amounts of the eight microframes of a frame from each active frame of a placement.
pub(crate) fn sub_microframes(table: &mut Table, placement: &Placement, amounts: &[u64; 8])
    requires cells { length table.old ≡ 8192 }
    requires place { IsPlace placement.now }
    requires enough { (u : ℕ) → u < 8192 → is_active placement.now (u / 8) ≡ true → slice_index amounts.now (u % 8) ≤ slice_index table.old u }
    ensures cells { length table.new ≡ 8192 }
    ensures sums { (u : ℕ) → u < 8192 → slice_index table.old u ≡ slice_index table.new u + (if is_active placement.now (u / 8) then slice_index amounts.now (u % 8) else 0) }
{
    for k in 0..turns(placement) {
        sub_in_frame(table, active_frame(placement, k), amounts);
    }
}

/// Takes an amount from each active frame of a placement.
pub(crate) fn sub_frames(table: &mut Table, placement: &Placement, amount: u64)
    requires cells { length table.old ≡ frame_list_length }
    requires place { IsPlace placement.now }
    requires enough { (f : ℕ) → f < frame_list_length → is_active placement.now f ≡ true → amount ≤ slice_index table.old f }
    ensures cells { length table.new ≡ frame_list_length }
    ensures sums { (f : ℕ) → f < frame_list_length → slice_index table.old f ≡ slice_index table.new f + (if is_active placement.now f then amount else 0) }
{
    for k in 0..turns(placement) {
        table.sub(active_frame(placement, k), amount);
    }
}

//! Worked rows, which the check computes.
ghost use Rattle.std.specs.Prelude.{◌≡◌, ◌∷◌, [], true, false, slice_get, Some};
ghost use Rattle.drv_table.specs.Releases.{is_told};
ghost use Rattle.drv_table.specs.Rows.{driver_row};
ghost use Rattle.law_queues.specs.leaving_drivers.Told.{told_to};
ghost use Rattle.law_world.specs.steps.endpoint_releases.Released.{IsToLeave, endpoint_row};
ghost use Rattle.law_world.specs.streams.left_reports.Samples.{by_cancel, by_stall, parts_with, after};

/// An endpoint that was cancelled is the next that is given back. Its lines told two bytes before; then they tell those that were held back, and those that were moved but not harvested.
pub fn a_cancelled_one_is_told()
    ensures row { driver_row (parts_with by_cancel) ≡ endpoint_row 0 }
    ensures leaves { IsToLeave (parts_with by_cancel).driver 0 by_cancel }
    ensures is_told { is_told by_cancel ≡ true }
    ensures before { told_to (parts_with by_cancel).driver by_cancel.desc.name ≡ 11 ∷ 12 ∷ [] }
    ensures told { told_to (after by_cancel) by_cancel.desc.name ≡ 11 ∷ 12 ∷ 1 ∷ 2 ∷ 3 ∷ 4 ∷ 5 ∷ 6 ∷ 7 ∷ 8 ∷ 9 ∷ [] }
    ensures gone { slice_get (after by_cancel).endpoints 0 ≡ Some (record by_cancel { gone = true }) }
{}

/// Of one that a stall had ended nothing more is told.
pub fn a_stalled_one_is_not()
    ensures is_told { is_told by_stall ≡ false }
    ensures told { told_to (after by_stall) by_stall.desc.name ≡ 11 ∷ 12 ∷ [] }
    ensures gone { slice_get (after by_stall).endpoints 0 ≡ Some (record by_stall { gone = true }) }
{}

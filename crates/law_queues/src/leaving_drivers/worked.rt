//! Worked rows, which the check computes.
ghost use Rattle.std.specs.Prelude.{◌≡◌, true, false, [], ◌∷◌};
ghost use Rattle.drv_table.specs.declared.rows.DriverRow.TheVariants as rows;
ghost use Rattle.drv_table.specs.Rows.{driver_row};
ghost use Rattle.law_driver.specs.endpoint_lives.Lives.{may_meet};
ghost use Rattle.law_driver.specs.chained_transfers.Worked.{in_ring, out_of_ring};
ghost use Rattle.law_queues.specs.leaving_drivers.Owed.{AreOwedMet, IsClearing};
ghost use Rattle.law_queues.specs.leaving_drivers.Told.{told_to};
ghost use Rattle.law_queues.specs.leaving_drivers.Before.{UnlinksAtMost};
ghost use Rattle.law_queues.specs.leaving_drivers.Worked.{parts_of, cancelled_driver, unlinked_driver, free_driver, rung_driver, heard_driver, cleared_driver, another, told_driver, later_driver};

/// What was harvested is given back first, and then the doorbell is rung; once it was answered, Async Advance is cleared, and the endpoint is given back.
pub fn a_leave_in_rows()
    ensures gives { driver_row (parts_of unlinked_driver) ≡ rows.ReleaseTransfer 0 }
    ensures rings { driver_row (parts_of free_driver) ≡ rows.RingBell }
    ensures listens { driver_row (parts_of rung_driver) ≡ rows.ReadStatus false }
    ensures clears { driver_row (parts_of heard_driver) ≡ rows.ClearAdvance }
    ensures leaves { driver_row (parts_of cleared_driver) ≡ rows.ReleaseEndpoint 0 }
{}

/// A walk may meet it until then.
pub fn a_leave_as_a_walk_sees_it()
    ensures unlinked { may_meet unlinked_driver 0 out_of_ring ≡ true }
    ensures rung { may_meet rung_driver 0 out_of_ring ≡ true }
    ensures heard { may_meet heard_driver 0 out_of_ring ≡ true }
    ensures cleared { may_meet cleared_driver 0 out_of_ring ≡ false }
{}

/// The harvested transfer belongs to it while it waits for the doorbell, and the clear finds none.
pub fn what_a_leave_owes()
    ensures owed { AreOwedMet unlinked_driver }
    ensures idle { UnlinksAtMost cancelled_driver.command }
    ensures clears { IsClearing heard_driver }
{}

/// The line of another endpoint changes nothing of what is told of it.
pub fn what_is_told_of_it()
    ensures told { told_to told_driver in_ring.desc.name ≡ 7 ∷ 8 ∷ [] }
    ensures later { told_to later_driver in_ring.desc.name ≡ 7 ∷ 8 ∷ [] }
    ensures other { told_to later_driver another ≡ 9 ∷ [] }
{}

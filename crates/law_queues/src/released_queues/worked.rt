//! Worked rows, which the check computes.
ghost use Rattle.std.specs.Prelude.{◌≡◌, ◌*◌};
ghost use Rattle.law_driver.specs.run_owners.Worked.{busy_driver, get_out};
ghost use Rattle.law_queues.specs.released_queues.Fronts.{piece_address, end_at};

/// A transfer of one qTD in block 132 that leads to the inactive one in block 133.
pub fn where_a_transfer_ends()
    ensures first { piece_address busy_driver get_out 0 ≡ 32 * 132 }
    ensures end { end_at busy_driver get_out ≡ 32 * 133 }
{}

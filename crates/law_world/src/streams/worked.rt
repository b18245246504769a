//! Worked rows, which the check computes.
ghost use Rattle.std.specs.Prelude.{[], ◌≡◌, Some, true, false, ◌∷◌};
ghost use Rattle.law_queues.specs.standing_fronts.Tails.{tail_block};
ghost use Rattle.drv_table.specs.declared.rows.DriverRow.TheVariants as rows;
ghost use Rattle.drv_table.specs.Leaving.{leaving_row};
ghost use Rattle.op_registers.specs.RegisterFile.{RegisterFile};
ghost use Rattle.law_driver_ring.specs.Released.{goes_of};
ghost use Rattle.claims_driver.specs.Leaving.{owes};
ghost use Rattle.law_driver.specs.run_owners.Worked.{busy_driver, get_out};

/// A get with its qTD in block 132 and its buffer in block 134 is reported, and given back: both go, and the tail in block 133 stays.
pub fn a_get_is_given_back()
    ensures owed { owes (Some (record get_out { reported = true })) ≡ 1 }
    ensures row { (r : RegisterFile) → leaving_row (record busy_driver { harvested = 0 ∷ []; mends = [] }) r ≡ Some (rows.ReleaseTransfer 0) }
    ensures qtd { goes_of busy_driver get_out 4224 ≡ true }
    ensures buffer { goes_of busy_driver get_out 4288 ≡ true }
    ensures stays { goes_of busy_driver get_out 4256 ≡ false }
    ensures tail { tail_block busy_driver.command (Some get_out) 0 133 ≡ 133 }
{}

//! Worked rows, which the check computes.
ghost use Rattle.std.specs.Prelude.{◌≡◌, ◌*◌, true, false, [], ◌∷◌};
ghost use Rattle.claims_driver.specs.Owners.{note_in};
ghost use Rattle.law_driver.specs.run_owners.Worked.{busy_notes, busy_driver, get_out};
ghost use Rattle.law_driver_ring.specs.Released.{blocks_of, goes_of};

/// A transfer of one qTD in block 132 with a buffer in block 134.
pub fn what_goes()
    ensures blocks { blocks_of (note_in busy_notes) 132 1 ≡ 132 ∷ 134 ∷ [] }
    ensures element { goes_of busy_driver get_out (32 * 132) ≡ true }
    ensures buffer { goes_of busy_driver get_out (32 * 134) ≡ true }
    ensures other { goes_of busy_driver get_out (32 * 133) ≡ false }
{}

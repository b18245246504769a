//! A worked row, which the check computes.
ghost use Rattle.std.specs.Prelude.{◌≡◌, [], ◌∷◌};
ghost use Rattle.drv_table.specs.Offers.{new_endpoint};
ghost use Rattle.drv_table.specs.Harvesting.{mends_of};
ghost use Rattle.law_driver.specs.run_owners.Worked.{bulk};

/// Of the queue head in block 130, which begins at 4160, the words 4 to 6 are owed: the overlay leads to the inactive qTD in block 133.
pub fn stores_of_a_stall()
    ensures { mends_of (new_endpoint bulk 130 133)
        ≡ record { queue = 130; at = 4176; value = 4256 } ∷ record { queue = 130; at = 4180; value = 1 } ∷ record { queue = 130; at = 4184; value = 0 } ∷ [] }
{}

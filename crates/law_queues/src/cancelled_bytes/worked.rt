//! Worked rows.
ghost use Rattle.std.specs.Prelude.{◌≡◌, [], ◌∷◌, true, None};
ghost use Rattle.drv_table.specs.Releases.{cancelled_bytes};
ghost use Rattle.claims_driver.specs.Owners.{note_in};
ghost use Rattle.law_driver.specs.chained_transfers.Out.{out_of};
ghost use Rattle.law_queues.specs.cancelled_bytes.Samples.{notes, half_read, memory};

/// A get of two qTDs, of which the first was harvested with four bytes: of the second five are told where the overlay works on it, and none where its token counts.
pub fn a_get_of_two_qtds()
    ensures out { out_of (note_in notes) 0 None 0 (half_read ∷ []) ≡ 96 ∷ [] }
    ensures overlay { cancelled_bytes notes (memory 96) 0 0 (half_read ∷ []) ≡ 1 ∷ 2 ∷ 3 ∷ 4 ∷ 5 ∷ 6 ∷ 7 ∷ 8 ∷ 9 ∷ [] }
    ensures token { cancelled_bytes notes (memory 64) 0 0 (half_read ∷ []) ≡ 1 ∷ 2 ∷ 3 ∷ 4 ∷ [] }
    ensures reported { cancelled_bytes notes (memory 96) 0 0 (record half_read { reported = true } ∷ []) ≡ [] }
    ensures beside { cancelled_bytes notes (memory 96) 1 0 (half_read ∷ []) ≡ [] }
{}

//! Worked rows, which the check computes.
ghost use Rattle.std.specs.Prelude.{◌≡◌, true, false, [], ◌∷◌};
ghost use Rattle.law_driver.specs.chained_transfers.Worked.{notes};
ghost use Rattle.law_driver_ring.specs.Released.{blocks_of, names_one};
ghost use Rattle.law_controller.specs.controlled_streams.Returned.{staying};

/// A short packet ended the transfer with the qTDs in blocks 132 and 140 at the first of them: both go. Those of the next one, in blocks 141 and 142, and the
/// tail in block 143 stay.
pub fn a_transfer_goes_and_the_tail_stays()
    ensures read { names_one (blocks_of notes 132 2) 4224 ≡ true }
    ensures passed { names_one (blocks_of notes 132 2) 4480 ≡ true }
    ensures next { names_one (blocks_of notes 132 2) 4512 ≡ false }
    ensures tail { names_one (blocks_of notes 132 2) 4576 ≡ false }
    ensures out { staying (names_one (blocks_of notes 132 2)) (4480 ∷ 4544 ∷ []) ≡ 4544 ∷ [] }
{}

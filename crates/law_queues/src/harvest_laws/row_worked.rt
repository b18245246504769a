//! Worked rows.
ghost use Rattle.std.specs.Prelude.{◌≡◌, ℕ, List, [], ◌∷◌, None};
ghost use Rattle.drv_table.specs.Harvests.{note_at, noted};
ghost use Rattle.claims_driver.specs.Owners.{note_in};
ghost use Rattle.law_driver.specs.chained_transfers.Out.{out_of};
ghost use Rattle.law_driver_ring.specs.told_harvests.Samples.{notes};
ghost use Rattle.law_queues.specs.harvest_laws.Holds.{IsToCome};
ghost use Rattle.law_queues.specs.harvest_laws.RowSamples.{three_qtds, read_on, ended_there};

/// A get of three qTDs in blocks 3, 0 and 2: all are out, then all but the first, and the same where a short packet ended it there.
pub fn of_one_transfer()
    ensures to_come { IsToCome (note_at notes) three_qtds }
    ensures before { out_of (note_in notes) 0 None 0 (three_qtds ∷ []) ≡ 96 ∷ 0 ∷ 64 ∷ [] }
    ensures moved { out_of (note_in (noted notes 3 512)) 0 None 0 (read_on ∷ []) ≡ 0 ∷ 64 ∷ [] }
    ensures ended { out_of (note_in (noted notes 3 100)) 0 None 0 (ended_there ∷ []) ≡ 0 ∷ 64 ∷ [] }
{}

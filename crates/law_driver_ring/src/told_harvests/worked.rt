//! Worked rows.
ghost use Rattle.std.specs.Prelude.{◌≡◌, ℕ};
ghost use Rattle.drv_table.specs.Harvests.{note_at, noted};
ghost use Rattle.law_driver_ring.specs.told_harvests.Held.{AreUnmoved, told_of};
ghost use Rattle.law_driver_ring.specs.told_harvests.Samples.{notes};

/// Of three qTDs, in blocks 3, 0 and 2, with 512, 512 and 100 bytes: all are unmoved, and then the first is noted with 512.
pub fn of_three_qtds()
    ensures told { told_of (note_at notes) 3 3 ≡ 1124 }
    ensures unmoved { AreUnmoved (note_at notes) 3 3 }
    ensures then { AreUnmoved (note_at (noted notes 3 512)) 0 2 }
    ensures noted { (note_at (noted notes 3 512) 3).moved ≡ 512 }
{}

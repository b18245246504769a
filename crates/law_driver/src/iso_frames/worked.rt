//! Worked rows of the definitions, which the check computes: an endpoint of eight frames' period, of which four descriptors wait around the end of the
//! list; and the driver that `run_owners` has for them, whose endpoint 2 has one descriptor that waits and one that was harvested.
ghost use Rattle.std.specs.Prelude.{◌≡◌, [], ◌∷◌, Some, None};
ghost use Rattle.drv_table.specs.declared.content.Command.TheVariants as unfinished;
ghost use Rattle.law_driver.specs.run_owners.Worked.{busy_driver};
ghost use Rattle.drv_periodic_table.specs.Frames.{frames_from};
ghost use Rattle.law_driver.specs.iso_frames.Steps.{AreInStep, AreApart};
ghost use Rattle.claims_driver.specs.DueMembers.{framed_to};
ghost use Rattle.law_driver.specs.iso_frames.Frames.{waiting_of};

/// Frames around the end of the list.
pub fn around_the_end()
    ensures next { frames_from (record { period = 64; phase = 5; smask = 1; cmask = 0 }) 1021 1 ≡ 5 }
    ensures steps { AreInStep (record { period = 64; phase = 5; smask = 1; cmask = 0 }) (1013 ∷ 1021 ∷ 5 ∷ 13 ∷ []) }
    ensures apart { AreApart (1013 ∷ 1021 ∷ 5 ∷ 13 ∷ []) }
{}

/// What waits, and how many transfers have their frames while a command links descriptors from transfer 2 on.
pub fn busy()
    ensures waits { waiting_of busy_driver 2 ≡ 140 ∷ [] }
    ensures others { waiting_of busy_driver 1 ≡ [] }
    ensures unframed { framed_to (Some (unfinished.Iso 2 2 1)) 0 3 ≡ 2 }
    ensures framed { framed_to (Some (unfinished.Iso 2 2 1)) 1 3 ≡ 3 }
    ensures idle { framed_to None 0 3 ≡ 3 }
{}

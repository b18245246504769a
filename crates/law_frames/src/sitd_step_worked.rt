//! Worked rows, which the check computes: of the walk with the siTD of an IN in hand.
ghost use Rattle.std.specs.Prelude.{◌≡◌};
ghost use Rattle.async_walk.specs.declared.state.WalkStep.{WalkStep};
ghost use Rattle.periodic_walk.specs.Rows.{step_of};
ghost use Rattle.law_frames.specs.FrameHand.{OfSitd};
ghost use Rattle.law_frames.specs.Frame.{IsFrame};
ghost use Rattle.law_frames.specs.SitdBackSamples.{met, parts, fetched, moved};
ghost use Rattle.law_frames.specs.SitdStepSamples.{at, settled};

/// It is passed in microframe 0, which is none of those of its complete-splits, transacts in microframe 2, is missed in microframe 3, and is written back once it transacted.
pub fn a_sitd_in_hand()
    ensures frame { IsFrame met parts (OfSitd fetched) (at 2) }
    ensures transacts { step_of (at 2) ≡ WalkStep.Transact }
    ensures misses { step_of (at 3) ≡ WalkStep.WriteBack }
    ensures passes { step_of (at 0) ≡ WalkStep.Skip }
    ensures later { IsFrame met parts (OfSitd moved) settled }
    ensures writes { step_of settled ≡ WalkStep.WriteBack }
{}

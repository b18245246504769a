ghost use Rattle.std.specs.Prelude.{ℕ, Option};
ghost use Rattle.law_structures.specs.lent_structures.Structures.{StructureSets};
ghost use Rattle.law_frames.specs.Met.{Kind};
ghost use Rattle.law_frames.specs.FrameHand.{SitdCopy, OfSitd};
ghost use Rattle.law_frames.specs.FrameSteps.{EventHappens};

use usb_base::Wire;

/// Each event of the walk with a siTD in hand leaves a frame, and has one of the effects: it is no fault.
pub fn each_event_at_a_sitd<W: Wire>()
    ensures { (met : ℕ → Option Kind) (parts : StructureSets) (c : SitdCopy) → EventHappens W.transacts met parts (OfSitd c) }
{}

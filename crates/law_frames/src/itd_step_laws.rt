ghost use Rattle.std.specs.Prelude.{ℕ, Option};
ghost use Rattle.law_structures.specs.lent_structures.Structures.{StructureSets};
ghost use Rattle.law_frames.specs.Met.{Kind};
ghost use Rattle.law_frames.specs.FrameHand.{ItdCopy, OfItd};
ghost use Rattle.law_frames.specs.FrameSteps.{EventHappens};
ghost use Rattle.law_frames.specs.ItdSteps.{HeardKeepsCopy};

use usb_base::Wire;

/// Whatever a transaction of an iTD hears, the copy goes on telling what stands in memory: its microframe has the same bytes, an IN received just as many
/// as are counted as moved, whatever it heard, and an OUT none; and all of them are bytes (4.7.1).
pub fn heard_keeps_copy()
    ensures { HeardKeepsCopy }
{}

/// Each event at an iTD leaves a frame, and has one of the effects.
pub fn each_event_at_an_itd<W: Wire>()
    ensures { (met : ℕ → Option Kind) (parts : StructureSets) (c : ItdCopy) → EventHappens W.transacts met parts (OfItd c) }
{}

ghost use Rattle.std.specs.Prelude.{ℕ, Option};
ghost use Rattle.law_structures.specs.lent_structures.Structures.{StructureSets};
ghost use Rattle.law_ring.specs.Hand.{Copy};
ghost use Rattle.law_frames.specs.Met.{Kind};
ghost use Rattle.law_frames.specs.FrameHand.{QueueSettlement, OfQueue, OfSettled};
ghost use Rattle.law_frames.specs.FrameSteps.{EventHappens};

use usb_base::Wire;

/// Each event with the copy of a queue head in hand leaves a frame, and has one of the effects: it is passed, takes a qTD, has its transaction, or what a missed
/// microframe of its split transaction comes to is written back.
pub fn each_event_at_a_queue_head<W: Wire>()
    ensures { (met : ℕ → Option Kind) (parts : StructureSets) (c : Copy) (made : ℕ) → EventHappens W.transacts met parts (OfQueue c made) }
{}

/// So does each with one in hand whose transaction isn't written back: that is what comes.
pub fn each_event_at_a_settled_queue_head<W: Wire>()
    ensures { (met : ℕ → Option Kind) (parts : StructureSets) (c : Copy) (s : QueueSettlement) (made : ℕ) → EventHappens W.transacts met parts (OfSettled c s made) }
{}

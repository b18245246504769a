ghost use Rattle.std.specs.Prelude.{◌≡◌, ◌≢◌, ℕ, true, List, Option};
ghost use Rattle.async_walk.specs.declared.state.WalkStep.{WalkStep};
ghost use Rattle.periodic_walk.specs.Place.{FramePlace};
ghost use Rattle.periodic_walk.specs.Rows.{step_of, Leads};
ghost use Rattle.law_structures.specs.lent_structures.Structures.{StructureSets};
ghost use Rattle.law_ring.specs.Effects.{AreBytesHeard};
ghost use Rattle.law_frames.specs.Met.{Kind};
ghost use Rattle.law_frames.specs.FrameHand.{FrameHand};
ghost use Rattle.law_frames.specs.Frame.{IsFrame};
ghost use Rattle.law_frames.specs.FrameSteps.{EventHappens};
ghost use Rattle.law_frames.specs.Walks.{HearsBytes, Walks, UnmetStays, IsWalked};

use usb_base::Wire;

/// Each event of the walk of the frames leaves a frame, and has one of the effects, whatever is in hand.
pub fn each_event<W: Wire>()
    ensures { (met : ℕ → Option Kind) (parts : StructureSets) (hand : FrameHand) → EventHappens W.transacts met parts hand }
{}

/// What comes next at a frame is never the fault (4.15.2.4), whatever the wire may answer.
pub fn no_event_is_a_fault()
    ensures { (met : ℕ → Option Kind) (parts : StructureSets) (hand : FrameHand) (p : FramePlace) → IsFrame met parts hand p → step_of p ≢ WalkStep.Fault }
{}

/// Where the controller runs, each word that the event reads or writes is Lent: no word is refused.
pub fn no_word_is_refused<W: Wire>()
    ensures { (met : ℕ → Option Kind) (parts : StructureSets) (hand : FrameHand) (p : FramePlace) (wire : W) (new : FramePlace) (after : W) → IsFrame met parts hand p
        → p.registers.run ≡ true → AreBytesHeard W.transacts wire after → Leads W.transacts p wire new after → new.memory.foreign ≡ p.memory.foreign }
{}

/// An event changes nothing of what belongs to one that isn't met.
pub fn unmet_stays<W: Wire>()
    ensures { UnmetStays W.transacts }
{}

/// However many events follow each other, a frame is left, and each of them had one of the effects on what the one before it left: so the structures are told from
/// those before. What belongs to one that isn't met is the same; none of the events is the fault, and no word is refused in them.
pub fn a_walk_goes_on<W: Wire>()
    ensures { (met : ℕ → Option Kind) (parts : StructureSets) (hand : FrameHand) (kinds : List WalkStep) (p : FramePlace) (wire : W) (new : FramePlace) (after : W)
        → HearsBytes W.transacts → IsFrame met parts hand p → Walks W.transacts new after kinds p wire
        → IsWalked W.transacts met parts hand wire after p new kinds }
{}

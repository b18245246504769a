ghost use Rattle.std.specs.Prelude.{◌≡◌, ℕ, true, Option};
ghost use Rattle.async_walk.specs.declared.state.WalkStep.{WalkStep};
ghost use Rattle.periodic_walk.specs.Place.{FramePlace};
ghost use Rattle.periodic_walk.specs.Rows.{step_of, step_at, Leads};
ghost use Rattle.law_structures.specs.lent_structures.Structures.{StructureSets};
ghost use Rattle.law_frames.specs.Met.{Kind};
ghost use Rattle.law_frames.specs.FrameHand.{FrameHand, frame_held};
ghost use Rattle.law_frames.specs.Frame.{IsFrame};
ghost use Rattle.law_frames.specs.FrameEffects.{FrameHappens};
ghost use Rattle.law_frames.specs.FrameSteps.{DoesAtHand};

use usb_base::Wire;

/// What comes next at a frame, and what it does, is told by what is in hand.
pub fn the_event_is_that_of_what_is_in_hand<W: Wire>()
    ensures kind { (met : ℕ → Option Kind) (parts : StructureSets) (hand : FrameHand) (p : FramePlace) → IsFrame met parts hand p → step_of p ≡ step_at p (frame_held hand) }
    ensures effect { (met : ℕ → Option Kind) (parts : StructureSets) (hand : FrameHand) (p : FramePlace) (wire : W) (new : FramePlace) (after : W) → IsFrame met parts hand p
        → Leads W.transacts p wire new after → DoesAtHand W.transacts hand p wire new after }
{}

/// An event with an effect isn't the fault.
pub fn no_fault_has_an_effect<W: Wire>()
    ensures { (met : ℕ → Option Kind) (parts : StructureSets) (hand : FrameHand) (wire after : W) (p new : FramePlace) → FrameHappens W.transacts met parts hand wire after p new WalkStep.Fault → ⊥ }
{}

/// Where the controller runs and the event has an effect, no word was refused: what it reads and writes is Lent (4.15.2.4).
pub fn no_step_refuses_a_word<W: Wire>()
    ensures { (met : ℕ → Option Kind) (parts : StructureSets) (hand : FrameHand) (wire after : W) (p new : FramePlace) → p.registers.run ≡ true → Leads W.transacts p wire new after
        → FrameHappens W.transacts met parts hand wire after p new (step_of p) → new.memory.foreign ≡ p.memory.foreign }
{}

ghost use Rattle.std.specs.Prelude.{ℕ, Bool};
ghost use Rattle.async_walk.specs.Rows.{WalkPlace, at_event, event_row, step_of, Leads};
ghost use Rattle.law_structures.specs.lent_structures.Structures.{StructureSets};
ghost use Rattle.law_ring.specs.Hand.{Hand};
ghost use Rattle.claims_base.specs.Controller.{Base};
ghost use Rattle.law_ring.specs.Ring.{IsRing};
ghost use Rattle.law_ring.specs.Effects.{AreBytesHeard, Happens};

use usb_base::Wire;

/// Each event of the walk leaves a ring, and has one of the effects.
pub fn each_event<W: Wire>()
    ensures { (base : Base) (member : ℕ → Bool) (parts : StructureSets) (hand : Hand) (p : WalkPlace) (wire : W) (new : WalkPlace) (after : W) → IsRing base member parts hand p
        → AreBytesHeard W.transacts wire after → Leads W.transacts (event_row p) (at_event p) wire new after
        → Happens W.transacts base member parts hand wire after new (step_of (event_row p) (at_event p)) }
{}

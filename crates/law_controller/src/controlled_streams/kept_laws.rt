//! The laws.
ghost use Rattle.std.specs.Prelude.{ℕ, Bool};
ghost use Rattle.async_walk.specs.declared.state.WalkStep.{WalkStep};
ghost use Rattle.async_walk.specs.Rows.{WalkPlace};
ghost use Rattle.hc_core.specs.Controller.{Content};
ghost use Rattle.law_structures.specs.lent_structures.Structures.{StructureSets};
ghost use Rattle.law_ring.specs.Hand.{Hand};
ghost use Rattle.claims_base.specs.Controller.{Base};
ghost use Rattle.law_ring.specs.Ring.{IsRing};
ghost use Rattle.law_ring.specs.Effects.{Effect};
ghost use Rattle.law_controller.specs.controlled_streams.Control.{IsControlled, ControlEffect};
ghost use Rattle.law_controller.specs.controlled_streams.Kept.{KeepsEach};

use usb_base::Wire;

/// Each event of the walk keeps so much of each structure, and so does each of the controller's, and any number of them one after the other.
pub fn each_event_keeps_structures<W: Wire>()
    ensures walk { (base : Base) (member : ℕ → Bool) (parts : StructureSets) (hand : Hand) (p : WalkPlace) (wire after : W) (now : StructureSets) (later : Hand) (kind : WalkStep)
        → IsRing base member parts hand p → Effect W.transacts parts hand wire after now later kind → KeepsEach parts now }
    ensures controller { (base : Base) (member : ℕ → Bool) (parts : StructureSets) (hand : Hand) (c : Content) (wire after : W) (now : StructureSets) (later : Hand)
        → IsControlled base member parts hand c → ControlEffect W.begins W.transacts parts hand wire after now later → KeepsEach parts now }
    ensures both { (parts mid now : StructureSets) → KeepsEach parts mid → KeepsEach mid now → KeepsEach parts now }
{}

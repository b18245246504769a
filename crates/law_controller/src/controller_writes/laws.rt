ghost use Rattle.std.specs.Prelude.{ℕ, Bool};
ghost use Rattle.hc_core.specs.Controller.{Content, microframe_row, HasRow};
ghost use Rattle.law_structures.specs.lent_structures.Structures.{StructureSets};
ghost use Rattle.law_ring.specs.Hand.{Hand};
ghost use Rattle.claims_base.specs.Controller.{Base};
ghost use Rattle.law_ring.specs.Effects.{AreBytesHeard};
ghost use Rattle.law_controller.specs.controlled_streams.Control.{IsOn, IsControlled};
ghost use Rattle.law_controller.specs.controller_writes.Leaving.{LeavesRest};

use usb_base::Wire;

/// Each event of the controller leaves what isn't Lent, and the first three words of each queue head.
pub fn each_event_leaves_the_rest<W: Wire>()
    ensures { (base : Base) (member : ℕ → Bool) (parts : StructureSets) (hand : Hand) (c : Content) (wire : W) (new : Content) (after : W)
        → IsControlled base member parts hand c → IsOn base → AreBytesHeard W.transacts wire after
        → HasRow W.begins W.transacts (microframe_row c.registers c.control) c wire new after → LeavesRest parts c.memory new.memory }
{}

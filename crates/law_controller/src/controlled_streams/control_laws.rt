//! The laws.
ghost use Rattle.std.specs.Prelude.{ℕ, Bool};
ghost use Rattle.hc_core.specs.Controller.{Content, microframe_row, HasRow};
ghost use Rattle.law_structures.specs.lent_structures.Structures.{StructureSets};
ghost use Rattle.law_ring.specs.Hand.{Hand};
ghost use Rattle.claims_base.specs.Controller.{Base};
ghost use Rattle.law_ring.specs.Effects.{AreBytesHeard};
ghost use Rattle.law_controller.specs.controlled_streams.Control.{IsOn, IsControlled, Controls};

use usb_base::Wire;

/// Each event of a controller that runs with its asynchronous schedule on, over a ring and a frame list without structures, leaves such a ring; it
/// is told what happened to the structures, and to the bytes and the toggle of each endpoint (4.6, 4.8 and 4.10).
pub fn each_event_of_the_controller<W: Wire>()
    ensures { (base : Base) (member : ℕ → Bool) (parts : StructureSets) (hand : Hand) (c : Content) (wire : W) (new : Content) (after : W)
        → IsControlled base member parts hand c → IsOn base → AreBytesHeard W.transacts wire after
        → HasRow W.begins W.transacts (microframe_row c.registers c.control) c wire new after
        → Controls W.begins W.transacts base member parts hand wire after new }
{}

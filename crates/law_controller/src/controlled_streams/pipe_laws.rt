//! The controller over a ring, and the pipes of its IN endpoints (EHCI 1.0, 4.6 and 4.10; USB 2.0, 8.6): each event of the controller takes at most one packet
//! more of one stream, and both sides of each pipe agree afterwards, whatever the bus loses.
ghost use Rattle.std.specs.Prelude.{ℕ, Bool, List, Option};
ghost use Rattle.hc_core.specs.Controller.{Content, HasRow, microframe_row};
ghost use Rattle.law_structures.specs.lent_structures.Structures.{StructureSets};
ghost use Rattle.law_ring.specs.Hand.{Hand};
ghost use Rattle.claims_base.specs.Controller.{Base};
ghost use Rattle.law_ring.specs.Effects.{AreBytesHeard};
ghost use Rattle.law_ring.specs.Told.{Endpoint};
ghost use Rattle.law_controller.specs.controlled_streams.Control.{IsOn, IsControlled};
ghost use Rattle.law_ring.specs.Bus.{Sender, IsBus, KeepsSenders};
ghost use Rattle.law_ring.specs.Pipes.{AreEndpoints, ArePiped};
ghost use Rattle.law_controller.specs.controlled_streams.Events.{ControlGoesOn};

use usb_base::Wire;

/// Each event of the controller takes at most one packet more of one stream, and all pipes agree afterwards.
pub fn an_event_keeps_the_pipes<W: Wire>()
    ensures { (stream : ℕ → ℕ → Bool) (packets : ℕ → ℕ → List (List ℕ)) (sender : W → ℕ → ℕ → Option Sender) (base : Base) (member streams : ℕ → Bool) (endpoint : ℕ → Endpoint)
        (acc : ℕ → List (List ℕ)) (parts : StructureSets) (hand : Hand) (c : Content) (wire : W) (new : Content) (after : W)
        → AreEndpoints stream member streams endpoint → IsBus W.transacts stream sender → KeepsSenders W.begins stream sender
        → IsControlled base member parts hand c → IsOn base → ArePiped stream packets sender member streams endpoint acc parts hand wire
        → AreBytesHeard W.transacts wire after → HasRow W.begins W.transacts (microframe_row c.registers c.control) c wire new after
        → ControlGoesOn W.begins W.transacts stream packets sender base member streams endpoint acc parts hand wire after new }
{}

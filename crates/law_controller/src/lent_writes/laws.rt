ghost use Rattle.hc_core.specs.Controller.{Content, microframe_row, HasRow};
ghost use Rattle.law_ring.specs.walk_writes.Writes.{WritesLent};
ghost use Rattle.law_controller.specs.lent_writes.Hands.{ArePlaced};

use usb_base::Wire;

/// Each event of the controller leaves the states of blocks, and every word that isn't in a Lent block.
pub fn each_event_of_the_controller_writes_lent_words<W: Wire>()
    ensures { (c : Content) (wire : W) (new : Content) (after : W) → ArePlaced c.control → HasRow W.begins W.transacts (microframe_row c.registers c.control) c wire new after
        → WritesLent c.memory new.memory }
{}

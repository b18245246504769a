ghost use Rattle.std.specs.Prelude.{ℕ, Bool, List};
ghost use Rattle.law_structures.specs.lent_structures.Structures.{StructureSets};
ghost use Rattle.law_ring.specs.Hand.{Hand};
ghost use Rattle.claims_base.specs.Controller.{Base};
ghost use Rattle.hc_core.specs.Controller.{Content};
ghost use Rattle.law_controller.specs.controlled_streams.Control.{IsControlled, ControlEffect};
ghost use Rattle.drv_table.specs.DriverContent.{DriverContent};
ghost use Rattle.law_controller.specs.controlled_streams.Kept.{KeepsEach};
ghost use Rattle.law_queues.specs.harvest_laws.Told.{ToldStands};
ghost use Rattle.law_queues.specs.harvest_laws.ToldLaws.{NewIsTold, SparedIsTold, AlikeIsTold, MetIsTold, RefusedIsTold, OpenedIsTold, AskedIsTold, RequestedIsTold, ReturnedIsTold, HarvestedIsTold};

use usb_base::Wire;

/// A driver that was just built has told nothing.
pub fn new_is_told()
    ensures { NewIsTold }
{}

/// Each event of the controller leaves what is told of each queue that has a stream.
pub fn the_controller_leaves_what_is_told<W: Wire>()
    ensures { (base : Base) (member : ℕ → Bool) (parts : StructureSets) (hand : Hand) (c : Content) (wire after : W) (now : StructureSets) (later : Hand) (d : DriverContent) (reported : ℕ → List ℕ)
        → IsControlled base member parts hand c → ControlEffect W.begins W.transacts parts hand wire after now later → KeepsEach parts now
        → ToldStands d hand parts reported → ToldStands d later now reported }
{}

/// So does each step of the driver that spares overlays and what is done.
pub fn spared_is_told()
    ensures { SparedIsTold }
{}

/// And each row that reports nothing: also the one that ends an open, and one that gives a reported transfer back.
pub fn rows_leave_what_is_told()
    ensures alike { AlikeIsTold }
    ensures met { MetIsTold }
    ensures returned { ReturnedIsTold }
{}

/// A command that is refused or accepted.
pub fn commands_leave_what_is_told()
    ensures refused { RefusedIsTold }
    ensures opened { OpenedIsTold }
    ensures asked { AskedIsTold }
    ensures requested { RequestedIsTold }
{}

/// A harvest adds the bytes that were moved of the qTD that was read.
pub fn harvested_is_told()
    ensures { HarvestedIsTold }
{}

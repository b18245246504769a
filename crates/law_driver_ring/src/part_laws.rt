//! The laws.
ghost use Rattle.law_driver_ring.specs.PartLaws.{OpeningDrives, QuietRowDrives, ElementStoreDrives, LinkStoreDrives, LendLeaves, OpenLeaves, ReceivingLeaves};
ghost use Rattle.std.specs.Prelude.{ℕ, Bool};
ghost use Rattle.async_walk.specs.declared.state.WalkStep.{WalkStep};
ghost use Rattle.async_walk.specs.Rows.{WalkPlace};
ghost use Rattle.drv_table.specs.DriverContent.{DriverContent};
ghost use Rattle.law_structures.specs.lent_structures.Structures.{StructureSets};
ghost use Rattle.law_ring.specs.Hand.{Hand};
ghost use Rattle.claims_base.specs.Controller.{Base};
ghost use Rattle.law_ring.specs.Effects.{Happens};
ghost use Rattle.law_driver_ring.specs.Driven.{DrivesRing};

use usb_base::Wire;

/// The memory of a driver that was just built is a ring of its head alone, beside the frame list, and has no other structure (4.1, 4.8).
pub fn opening_drives()
    ensures { OpeningDrives }
{}

/// Each event of the ring's walk leaves the structures that the driver has lent, and no others.
pub fn the_walk_leaves_it_driven<W: Wire>()
    ensures { (base : Base) (member : ℕ → Bool) (parts : StructureSets) (hand : Hand) (p : WalkPlace) (d : DriverContent) (wire after : W) (new : WalkPlace) (kind : WalkStep)
        → DrivesRing base member parts hand p d → (h : Happens W.transacts base member parts hand wire after new kind)
        → DrivesRing base member h.now h.later new d }
{}

/// And so does each row of the driver that stores no word, and each store that keeps the ring sound.
pub fn rows_leave_it_driven()
    ensures quiet { QuietRowDrives }
    ensures element { ElementStoreDrives }
    ensures link { LinkStoreDrives }
{}

/// A lend, an open of an endpoint of the ring, and a transfer that only receives leave all that was lent before.
pub fn what_was_lent_stays()
    ensures lend { LendLeaves }
    ensures opening { OpenLeaves }
    ensures receiving { ReceivingLeaves }
{}

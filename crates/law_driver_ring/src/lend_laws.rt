//! The laws.
ghost use Rattle.std.specs.Prelude.{◌≡◌, ℕ, Bool, false};
ghost use Rattle.async_walk.specs.declared.state.WalkStep.{WalkStep};
ghost use Rattle.async_walk.specs.Rows.{WalkPlace};
ghost use Rattle.law_structures.specs.lent_structures.Structures.{StructureSets};
ghost use Rattle.law_ring.specs.Hand.{Hand};
ghost use Rattle.claims_base.specs.Controller.{Base};
ghost use Rattle.law_ring.specs.Ring.{IsRing};
ghost use Rattle.law_ring.specs.Effects.{Happens};
ghost use Rattle.law_driver_ring.specs.Beside.{OpenedStays};
ghost use Rattle.law_driver_ring.specs.Linked.{OpenIsUnmet, LinkOpensDrives};
ghost use Rattle.law_driver_ring.specs.Published.{PublishStoreDrives};
ghost use Rattle.law_driver_ring.specs.LendOpened.{LendOpensDrives, OpenIsReady};

use usb_base::Wire;

/// Once an open was accepted, its queue head and its inactive qTD stand in two runs that are kept, and these are all that is to be lent.
pub fn open_is_ready()
    ensures ready { OpenIsReady }
{}

/// Where a driver lends the queue head and the inactive qTD of a new endpoint, which it wrote in runs that it kept, the ring goes on with both told
/// beside it, and the driver's content tells which structures it has; the walk doesn't meet it yet.
pub fn a_new_endpoint_is_lent()
    ensures unmet { OpenIsUnmet }
    ensures opens { LendOpensDrives }
{}

/// Where the link of the ring's head is stored after that, the ring goes on, and the walk may meet the new queue head.
pub fn link_opens_drives()
    ensures links { LinkOpensDrives }
{}

/// What the controller doesn't reach stays ready to be lent, and no event of the ring's walk changes the structures of a queue head that the walk
/// doesn't meet.
pub fn a_new_endpoint_stays<W: Wire>()
    ensures kept { OpenedStays }
    ensures unmet { (base : Base) (member : ℕ → Bool) (parts : StructureSets) (hand : Hand) (p : WalkPlace) (wire after : W) (new : WalkPlace) (kind : WalkStep) (n : ℕ)
        → IsRing base member parts hand p → (h : Happens W.transacts base member parts hand wire after new kind) → member n ≡ false → h.now n ≡ parts n }
{}

/// Each store of a qTD that is published where the inactive qTD of a queue stands leaves the ring; the token, which sets Active, is stored last.
pub fn publish_store_drives()
    ensures stores { PublishStoreDrives }
{}

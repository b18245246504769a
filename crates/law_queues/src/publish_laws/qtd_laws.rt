//! The laws.
ghost use Rattle.std.specs.Prelude.{◌≡◌, ℕ, ◌<◌, Bool};
ghost use Rattle.qh_qtd.specs.declared.qtd.Qtd.{Qtd};
ghost use Rattle.drv_table.specs.DriverContent.{DriverContent};
ghost use Rattle.drv_table.specs.Parts.{Parts};
ghost use Rattle.drv_table.specs.Rows.{driver_row};
ghost use Rattle.law_structures.specs.lent_structures.Structures.{StructureSets};
ghost use Rattle.law_controller.specs.controlled_streams.Kept.{KeepsEach};
ghost use Rattle.law_driver_ring.specs.Published.{publish_row};
ghost use Rattle.law_queues.specs.publish_laws.Publishing.{IsBeingPublished, StoreIsMade, NextIsReady, LastIsMade};

/// The driver's next event is the next store of the qTD; it leaves the ring, and the one after it can be made, or all are.
pub fn a_store_is_made()
    ensures row { (p : Parts) (member : ℕ → Bool) (parts : StructureSets) (n b : ℕ) (t : Qtd) (k : ℕ) → IsBeingPublished p.driver member parts n b t k
        → driver_row p ≡ publish_row b t k }
    ensures made { StoreIsMade }
    ensures next { NextIsReady }
    ensures last { LastIsMade }
{}

/// What an event of the controller keeps of each structure is enough for it.
pub fn it_goes_on_beside_the_controller()
    ensures { (d : DriverContent) (member : ℕ → Bool) (parts now : StructureSets) (n b : ℕ) (t : Qtd) (k : ℕ) → KeepsEach parts now → IsBeingPublished d member parts n b t k
        → IsBeingPublished d member now n b t k }
{}

ghost use Rattle.std.specs.Prelude.{ℕ, List, []};
ghost use Rattle.law_structures.specs.lent_structures.Structures.{StructureSets};
ghost use Rattle.law_ring.specs.Hand.{Hand};
ghost use Rattle.drv_table.specs.declared.content.Reserve.{Reserve as Room};
ghost use Rattle.drv_table.specs.Opening.{opening};
ghost use Rattle.law_queues.specs.told_endpoints.Telling.{named_in, TellsEach};
ghost use Rattle.law_queues.specs.harvest_laws.Holds.{HoldsEach};
ghost use Rattle.law_queues.specs.harvest_laws.RowLaws.{HarvestIsTold, ActiveIsLeft, HoldsTheSame, HoldsStill};

/// A driver that was just built holds nothing back, and has told nothing.
pub fn a_new_driver_holds_nothing()
    ensures held { (n : ℕ) (room : Room) (hand : Hand) (parts : StructureSets) → HoldsEach (opening n room).driver hand parts (λ (e : ℕ). []) }
    ensures told { (n : ℕ) (room : Room) → TellsEach (opening n room).driver.reports (opening n room).driver.store (named_in (opening n room).driver.endpoints) (λ (e : ℕ). []) (λ (e : ℕ). []) }
{}

/// The row of a harvest of a qTD that is done tells its bytes, and the others are out still.
pub fn harvest_is_told()
    ensures { HarvestIsTold }
{}

/// One that isn't done is left.
pub fn active_is_left()
    ensures { ActiveIsLeft }
{}

/// What is held back stays where no endpoint, transfer or note changes, and where structures change but what is done.
pub fn what_is_held_stays()
    ensures same { HoldsTheSame }
    ensures structures { HoldsStill }
{}

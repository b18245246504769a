//! Worked rows.
ghost use Rattle.std.specs.Prelude.{ℕ};
ghost use Rattle.drv_table.specs.declared.content.Reserve.{Reserve as Room};
ghost use Rattle.drv_table.specs.Opening.{opening};
ghost use Rattle.law_queues.specs.harvest_laws.HeldLaws.{AreThere};

/// A driver that was just built has no transfer, so each that waits is there.
pub fn nothing_to_return()
    ensures { (n : ℕ) (room : Room) → AreThere (opening n room).driver }
{}

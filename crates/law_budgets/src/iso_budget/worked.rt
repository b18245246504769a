//! Worked rows: two descriptors of one frame, and the visits of a driver that was just built, of which there are none.
ghost use Rattle.std.specs.Prelude.{ℕ, [], ◌∷◌};
ghost use Rattle.drv_table.specs.declared.content.Reserve.{Reserve};
ghost use Rattle.drv_table.specs.Opening.{opening};
ghost use Rattle.law_budgets.specs.iso_budget.Visited.{AreDifferent, AreVisits};

/// Descriptors with two names are different.
pub fn two_descriptors()
    ensures { AreDifferent (record { id = 4480; frame = 5 } ∷ record { id = 4544; frame = 5 } ∷ []) }
{}

/// No queue head and no descriptor is visited.
pub fn no_visits()
    ensures { (n : ℕ) (room : Reserve) (f : ℕ) → AreVisits (opening n room).driver f [] [] [] }
{}

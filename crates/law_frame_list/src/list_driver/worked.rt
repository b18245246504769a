//! A worked row, which the check computes.
ghost use Rattle.std.specs.Prelude.{◌≡◌, [], None};
ghost use Rattle.drv_table.specs.declared.content.Reserve.{Reserve};
ghost use Rattle.drv_table.specs.Opening.{opening};

/// A driver that was just built for 2,048 words owes no store, and nothing is under way in its list or to be linked.
pub fn nothing_is_owed_at_first()
    ensures mends { (room : Reserve) → (opening 2048 room).driver.mends ≡ [] }
    ensures work { (room : Reserve) → (opening 2048 room).driver.periodic.list.work ≡ None }
    ensures queued { (room : Reserve) → (opening 2048 room).driver.periodic.queued ≡ [] }
{}

//! Worked rows.
ghost use Rattle.std.specs.Prelude.{ℕ};
ghost use Rattle.law_queues.specs.mended_heads.Samples.{waiting, first_parts, none_out};
ghost use Rattle.law_world.specs.steps.control_queues.Controls.{ControlsStand};
ghost use Rattle.law_world.specs.steps.control_queues.Samples.{asked, its_parts, its_out};

/// It stands of a control endpoint of which the first SETUP was halted by a STALL, with a request behind it.
pub fn a_halted_queue_stands()
    ensures { ControlsStand asked its_parts (λ n a. a) its_out }
{}

/// .. and of one whose stall was harvested: its queue head is halted, and owed three stores.
pub fn a_queue_that_is_owed_stands()
    ensures { ControlsStand waiting.driver first_parts (λ n a. a) none_out }
{}

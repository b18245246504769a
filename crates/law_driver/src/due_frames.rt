//! The frame list stands for the plan (EHCI 1.0, 4.6; USB 2.0, 5.11.3 and 11.18): at each moment of a run of a driver beside a controller the
//! chain of each frame has the queue heads of the interrupt endpoints that are due in it and not cancelled, each once, also while one is
//! linked or unlinked, and all that is placed keeps every budget.
//!
//! The module has no code of its own: each function is a law over the definitions of `drv_table`, and its body is empty. It puts together what
//! `in_place`, `listed_queues`, `ordered_list`, `planned_endpoints` and `law_admission` say. What the words of the list are is no part of it.

ghost use Rattle.std.specs.Prelude.{◌≡◌, ℕ, ◌%◌, ◌≤◌, List};
ghost use Rattle.word_mem.specs.Memory.{Mem};
ghost use Rattle.drv_table.specs.declared.content.Reserve.{Reserve};
ghost use Rattle.drv_table.specs.DriverContent.{DriverContent};
ghost use Rattle.drv_table.specs.Opening.{opening};
ghost use Rattle.law_driver.specs.in_place.Run.{Move};
ghost use Rattle.law_driver.specs.due_frames.Scheduled.{IsScheduled, StandsForPlan, StaysScheduled};

/// Where everything is in place, the list is in order and the plan is what the endpoints have, each frame's chain stands for the plan.
pub fn a_frame_stands_for_the_plan()
    ensures { (m : Mem) (d : DriverContent) (f : ℕ) → IsScheduled m d → StandsForPlan d f }
{}

/// So it does at each moment of a run.
pub fn frames_stand_for_the_plan_at_each_moment()
    ensures { (n : ℕ) (room : Reserve) (moves : List Move) (f : ℕ) → 2048 ≤ n → n ≤ 262144 → n % 1024 ≡ 0 → StaysScheduled (opening n room) moves f }
{}

//! Worked rows of what is due as a microframe begins, which the check computes: a high-speed keyboard in microframe 1 of frame 0 (EHCI 1.0,
//! 3.6, 4.6 and 4.10).
ghost use Rattle.std.specs.Prelude.{◌≡◌};
ghost use Rattle.hc_core.specs.declared.controller.ControllerRow.TheVariants.{Begin};
ghost use Rattle.bus_wire.specs.Bus.{fixed_of};
ghost use Rattle.bus_world.specs.World.{controller_row};
ghost use Rattle.claims_world.specs.DueAtBegin.{IsDueAtBegin, IsUncancelled};
ghost use Rattle.claims_world.specs.SoFar.{HasMoved};
ghost use Rattle.claims_world.specs.Visits.{IsPastFrames};
ghost use Rattle.law_microframes.specs.due.Samples.{one_keyboard, with_loss, keyed_at, keyed_so_far, its_queue};
ghost use Rattle.law_reports.specs.due_at_begin.Samples.{cancelled_keyboard};
ghost use Rattle.law_reports.specs.due_at_begin.Unfinished.{HasUnfinished};

/// The Begin of microframe 1 leaves a world in which a transaction of the keyboard is due.
pub fn a_keyboard_is_due_at_begin()
    ensures begins { controller_row (keyed_at 21) ≡ Begin }
    ensures due { IsDueAtBegin (fixed_of one_keyboard) (keyed_at 22) 0 130 }
{}

/// Where its transaction was made and isn't written back it isn't done yet; once the walk of the frames is over it is, and no cancel of the
/// keyboard was accepted.
pub fn a_keyboard_is_done_by_the_end()
    ensures not_yet { HasMoved its_queue 8 (keyed_so_far 29).moved → ⊥ }
    ensures over { IsPastFrames (keyed_at 30) }
    ensures kept { IsUncancelled (keyed_at 30).driver 0 }
    ensures done { HasMoved its_queue 8 (keyed_so_far 30).moved }
{}

/// It isn't due where the script loses its second packet; and a keyboard whose cancel is accepted in its microframe is cancelled.
pub fn a_keyboard_is_excused()
    ensures lost { IsDueAtBegin (fixed_of with_loss) (keyed_at 22) 0 130 → ⊥ }
    ensures cancelled { IsUncancelled cancelled_keyboard.driver 0 → ⊥ }
{}

/// As its microframe begins the keyboard's transfer is unfinished, and its device is ready; where the script loses its second packet the
/// device isn't.
pub fn a_keyboard_has_unfinished_work()
    ensures work { HasUnfinished (fixed_of one_keyboard) (keyed_at 22) 0 130 }
    ensures lost { HasUnfinished (fixed_of with_loss) (keyed_at 22) 0 130 → ⊥ }
{}

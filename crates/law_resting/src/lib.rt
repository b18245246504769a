//! When a driver rests (EHCI 1.0, 4.6 to 4.8 and 4.10): only where nothing that it was asked for is left to be done.
//!
//! The crate has no code of its own: each function is a law over the definitions of `drv_table`, and its body is empty.
#![tactic(auto)]

pub mod worked;

ghost use Rattle.law_resting.specs.Counted.{NewDriverIsCounted, EventsKeepCounts, CommandsKeepCounts};
ghost use Rattle.law_resting.specs.Making.{NewDriverIsMaking, EventsKeepMaking, CommandsKeepMaking, DriversRestWhenDone};
ghost use Rattle.law_resting.specs.Turns.{DriversTakeTurns};
ghost use Rattle.law_resting.specs.Storing.{NewDriverIsStoring, EventsKeepStoring, CommandsKeepStoring, LinkedHasWords, WorkHasStore};

/// A driver that was just built forgets nothing.
pub fn new_driver_is_counted()
    ensures { NewDriverIsCounted }
{}

/// Nor does one at an event.
pub fn events_keep_counts()
    ensures { EventsKeepCounts }
{}

/// Nor does one that accepts a command.
pub fn commands_keep_counts()
    ensures { CommandsKeepCounts }
{}

/// Of a command that links nothing in the frame list an event is left while it is unfinished.
pub fn an_unfinished_command_has_an_event()
    ensures new { NewDriverIsMaking }
    ensures events { EventsKeepMaking }
    ensures commands { CommandsKeepMaking }
{}

/// Of one that links or unlinks in the frame list a store is left.
pub fn a_linking_command_has_a_store()
    ensures new { NewDriverIsStoring }
    ensures events { EventsKeepStoring }
    ensures commands { CommandsKeepStoring }
    ensures linked { LinkedHasWords }
    ensures next { WorkHasStore }
{}

/// A driver rests only where all that it was asked for is done.
pub fn drivers_rest_when_done()
    ensures { DriversRestWhenDone }
{}

/// While something is owed, or a transfer has no line, this event or the next one sees to it.
pub fn drivers_take_turns()
    ensures { DriversTakeTurns }
{}

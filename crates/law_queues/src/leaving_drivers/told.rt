//! The laws of what is told of an endpoint that was given back.
ghost use Rattle.law_queues.specs.leaving_drivers.Told.{EventsLeaveTold, EventsOnlyTell, CommandsLeaveTold, CommandsOnlyTell, RefusalsTellNothing};

/// Each event leaves what was told of an endpoint that was given back.
pub fn events_leave_what_was_told()
    ensures leave { EventsLeaveTold }
    ensures only { EventsOnlyTell }
{}

/// And so does each accepted command.
pub fn commands_leave_what_was_told()
    ensures leave { CommandsLeaveTold }
    ensures only { CommandsOnlyTell }
{}

/// A refusal tells nothing of any endpoint.
pub fn refusals_tell_nothing()
    ensures { RefusalsTellNothing }
{}

//! The laws of the endpoint whose members a command unlinks.
ghost use Rattle.law_descriptors.specs.Chained.{NewDriverLeavesChained, EventsLeaveChained, CommandsLeaveChained};

/// A driver that was just built has no command.
pub fn new_driver_leaves_chained()
    ensures { NewDriverLeavesChained }
{}

/// While a command unlinks the members of an endpoint, the endpoint stays in its frames: with the last store the command is finished.
pub fn events_leave_chained()
    ensures { EventsLeaveChained }
{}

/// Where a cancel is accepted of a periodic endpoint, it is in its frames, since it wasn't cancelled before; no other command unlinks members.
pub fn commands_leave_chained()
    ensures { CommandsLeaveChained }
{}

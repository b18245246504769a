//! The laws of drivers of bulk and control endpoints, those of the asynchronous schedule (EHCI 1.0, 4.8).
ghost use Rattle.law_driver.specs.chained_transfers.AsynchronousTurns.{NewDriverTakesAsynchronousTurns, EventsKeepAsynchronousTurns, CommandsKeepAsynchronousTurns, AsynchronousCommandIsAccepted, BulkIsAsynchronous};

/// A driver that was just built takes turns: it has no transfer.
pub fn new_driver_takes_asynchronous_turns()
    ensures { NewDriverTakesAsynchronousTurns }
{}

/// Each event of the driver leaves the transfers chained and in turn, the harvest of a stalled request and the stores that follow it, too.
pub fn events_keep_asynchronous_turns()
    ensures { EventsKeepAsynchronousTurns }
{}

/// And so does each command that opens a high-speed bulk or control endpoint, or is no open, where it is accepted.
pub fn commands_keep_asynchronous_turns()
    ensures { CommandsKeepAsynchronousTurns }
{}

/// Such a command becomes an endpoint more, a get or put of a bulk endpoint, a request to a control endpoint, or an endpoint that is to leave.
pub fn asynchronous_command_is_accepted()
    ensures { AsynchronousCommandIsAccepted }
{}

/// A driver of bulk endpoints alone is one of these.
pub fn bulk_is_asynchronous()
    ensures { BulkIsAsynchronous }
{}

//! The laws.
ghost use Rattle.law_driver.specs.chained_transfers.InTurn.{NewDriverTakesTurns, EventsKeepTurns, CommandsKeepTurns};

/// A driver that was just built takes turns: it has no transfer.
pub fn new_driver_takes_turns()
    ensures { NewDriverTakesTurns }
{}

/// Each event of the driver leaves the transfers chained and in turn.
pub fn events_keep_turns()
    ensures { EventsKeepTurns }
{}

/// And so does each command that opens a high-speed bulk endpoint, or is no open, where it is accepted.
pub fn commands_keep_turns()
    ensures { CommandsKeepTurns }
{}

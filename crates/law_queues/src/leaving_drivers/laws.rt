//! The laws of what is to be given back.
ghost use Rattle.law_queues.specs.leaving_drivers.Owed.{NewDriverOwesMet, EventsOweMet, CommandsOweMet, ClearFinds, ClearedAreUnmet, GoneAreUnmet};

/// A driver that was just built has nothing to give back.
pub fn new_driver_owes_met()
    ensures { NewDriverOwesMet }
{}

/// After each event what is to be given back belongs to endpoints that a walk may meet.
pub fn events_owe_met()
    ensures { EventsOweMet }
{}

/// And after each command that opens a high-speed bulk or control endpoint, cancels, or is no open, where it is accepted.
pub fn commands_owe_met()
    ensures { CommandsOweMet }
{}

/// Async Advance is cleared when it was heard, between commands, and with nothing left to give back.
pub fn clear_finds()
    ensures { ClearFinds }
{}

/// A walk can't meet an endpoint for which Async Advance was cleared, nor one that was given back.
pub fn those_out_of_reach()
    ensures cleared { ClearedAreUnmet }
    ensures gone { GoneAreUnmet }
{}

//! The laws of drivers none of whose endpoints leaves the ring (EHCI 1.0, 4.8.2).
ghost use Rattle.law_driver.specs.chained_transfers.Leaving.{CommandIsAccepted, NewDriverStays, NothingStartsToLeave, NothingIsTakenAway};

/// A command that opens a high-speed bulk endpoint, or is no open, becomes an endpoint more, a get or put, or an endpoint that is to leave, where it is accepted.
pub fn command_is_accepted()
    ensures { CommandIsAccepted }
{}

/// Of a driver that was just built nothing leaves.
pub fn new_driver_stays()
    ensures { NewDriverStays }
{}

/// Without a cancel no event of the driver lets an endpoint leave.
pub fn nothing_starts_to_leave()
    ensures { NothingStartsToLeave }
{}

/// And no command that isn't a cancel, where it is accepted.
pub fn nothing_is_taken_away()
    ensures { NothingIsTakenAway }
{}

//! Cancelled control endpoints at high speed: what their lines tell, but for the one of the cancel (EHCI 1.0, 4.8.2 and 4.10; USB 2.0,
//! 8.5.3).
ghost use Rattle.law_reports.specs.requests.CancelledTold.{DriverKeepsCancelled, ControllerKeepsCancelled, CommandKeepsCancelled};
ghost use Rattle.law_reports.specs.requests.CancelledTold.{TextsTellOfCancelled};

/// Each event of the driver leaves it: it harvests nothing of one that was cancelled, and gives it back with one line, that of the cancel.
pub fn driver_keeps_cancelled()
    ensures { DriverKeepsCancelled }
{}

/// So does each event of the controller: what was reported of one that the walk may still meet is over, and the device of one that it can't
/// meet any more stays as it is.
pub fn controller_keeps_cancelled()
    ensures { ControllerKeepsCancelled }
{}

/// So does each command, accepted or refused: an endpoint that has ended takes none but its cancel.
pub fn command_keeps_cancelled()
    ensures { CommandKeepsCancelled }
{}

/// So it is at each moment of each script that a text spells.
pub fn texts_tell_of_cancelled()
    ensures { TextsTellOfCancelled }
{}

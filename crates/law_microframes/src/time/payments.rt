//! What the visits of a microframe cost, along a run in which events and commands of the driver come between (USB 2.0, 5.9 and 5.11.3; EHCI 1.0, 3.3, 4.7, 4.10.3 and 4.12).
ghost use Rattle.law_microframes.specs.time.PaymentLaws.{ControllerKeepsPaying, DriverKeepsPaying, CommandKeepsPaying, ScriptsPayWithinLoad, TextsPayWithinLoad};

/// An event of the controller leaves each visit of the microframe within the placement of its endpoint: it begins one, of which nothing is paid, or adds to what the newest cost.
pub fn controller_keeps_paying()
    ensures { ControllerKeepsPaying }
{}

/// An event of the driver leaves them so: no endpoint that was visited is given back in the microframe.
pub fn driver_keeps_paying()
    ensures { DriverKeepsPaying }
{}

/// So does a command, accepted or refused.
pub fn command_keeps_paying()
    ensures { CommandKeepsPaying }
{}

/// All that the visits of a microframe cost is no more than the load of the microframe, nor than four fifths of it, at each moment of the
/// run of a script; what they cost are the prices of their transactions, but for those made again at once, which are summed apart, and just
/// both was taken of the time.
pub fn visits_cost_no_more_than_the_load()
    ensures scripts { ScriptsPayWithinLoad }
    ensures texts { TextsPayWithinLoad }
{}

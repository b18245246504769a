//! The laws of the numbers of a driver's endpoints.
ghost use Rattle.law_world.specs.memory.framed_memory.IsochronousLaws.{NewIsNumbered, EventsKeepNumbered, CommandsKeepNumbered};

/// The numbers of each endpoint fit their fields, where those of each that is opened do (USB 2.0, 8.3.2; EHCI 1.0, 3.3.3 and 3.4.2).
pub fn numbers_go_on_fitting()
    ensures opening { NewIsNumbered }
    ensures events { EventsKeepNumbered }
    ensures commands { CommandsKeepNumbered }
{}

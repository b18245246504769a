//! A mixed world goes on as one (EHCI 1.0, 3, 4.6 to 4.10 and 4.12; USB 2.0, 5.5 to 5.8): before the first line of a script, and after each event and each command.
ghost use Rattle.law_world.specs.memory.Laws.{
  NewWorldIsMixed,
  ControllerKeepsMixed,
  ControllerTellsEvent,
  DriverKeepsMixed,
  DriverTellsStep,
  CommandKeepsMixed,
  CommandKeepsStanding,
  CommandTellsStep,
};

/// The world of each script of bytes is mixed before its first line.
pub fn new_world_is_mixed()
    ensures { NewWorldIsMixed }
{}

/// Each event of the controller, of the walk of the ring or of that of the frames, leaves a mixed world mixed (4.6 to 4.10 and 4.12).
pub fn controller_keeps_mixed()
    ensures { ControllerKeepsMixed }
{}

/// So does each event of the driver: what it lends, publishes, links, unlinks, harvests, mends and gives back.
pub fn driver_keeps_mixed()
    ensures { DriverKeepsMixed }
{}

/// So does each command, refused or accepted, where the numbers of what it opens fit their fields, and its way is that of its kind.
pub fn command_keeps_mixed()
    ensures { CommandKeepsMixed }
{}

/// What an event of the controller does to the structures that are told, and to what its walks have in hand, tells all that is carried on
/// after it.
pub fn controller_tells_event()
    ensures { ControllerTellsEvent }
{}

/// Each event of the driver is one step of one queue, as the queues tell the driver, or none: a harvest, a return, a lend, a store, a mend,
/// the beginning and the end of an open, an unlink, an answered doorbell, or an endpoint that is given back.
pub fn driver_tells_step()
    ensures { DriverTellsStep }
{}

/// A command leaves all structures that are told, all that is in hand, and what is out of each queue.
pub fn command_keeps_standing()
    ensures { CommandKeepsStanding }
{}

/// So no queue has a step by it.
pub fn command_tells_step()
    ensures { CommandTellsStep }
{}

//! The laws.
ghost use Rattle.law_world.specs.steps.controlled_walks.Walks.{FrameLeavesDoorbell, ControllerKeepsWalk, ControllerKeepsBell, NewDriverBell, CommandKeepsBell};
ghost use Rattle.law_world.specs.steps.controlled_walks.Worlds.{NewWorldWalks, ControllerKeepsWalking, DriverKeepsWalking, CommandKeepsWalking};

use usb_base::Wire;

/// Each event of the controller leaves its walk among the queue heads that it may reach, where the words of memory stand for the ring; content and
/// registers agree on the doorbell after it. Those of a frame's chain leave the doorbell, Async Advance and the ring's address.
pub fn the_controller_keeps_its_walk<W: Wire>()
    ensures frame { FrameLeavesDoorbell W.transacts }
    ensures walk { ControllerKeepsWalk W.begins W.transacts }
    ensures bell { ControllerKeepsBell W.begins W.transacts }
{}

/// Content and registers agree on the doorbell when the driver was built, and after each command that is accepted.
pub fn the_bell_begins_quiet()
    ensures new { NewDriverBell }
    ensures command { CommandKeepsBell }
{}

/// A world begins with its walk among the queue heads that it may reach, and each event of its controller and of its driver and each command leave it so.
pub fn a_world_keeps_its_walk()
    ensures new { NewWorldWalks }
    ensures controller { ControllerKeepsWalking }
    ensures driver { DriverKeepsWalking }
    ensures command { CommandKeepsWalking }
{}

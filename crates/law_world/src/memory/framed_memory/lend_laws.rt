//! The laws of isochronous descriptors from their acceptance to their lend, beside a controller that walks a ring and the frames.
ghost use Rattle.law_world.specs.memory.framed_memory.Masks.{NewIsMasked, EventsKeepMasks, CommandsKeepMasks};
ghost use Rattle.law_world.specs.memory.framed_memory.IsochronousLaws.{LendKeepsNow, NewAwaitsNothing, EventsKeepAwaiting, CommandsKeepAwaiting, WritesKeepAwaiting};

/// The masks of a driver's placements have eight bits: a plan answers no others (EHCI 1.0, 4.12.2.1, 4.12.3.1; USB 2.0, 11.18).
pub fn placements_have_small_masks()
    ensures opening { NewIsMasked }
    ensures events { EventsKeepMasks }
    ensures commands { CommandsKeepMasks }
{}

/// A driver that was just built has no descriptors to lend.
pub fn new_awaits_nothing()
    ensures { NewAwaitsNothing }
{}

/// Descriptors that are taken on are written in runs that the driver alone may touch, and so they are until they are lent: after each event of the driver, and
/// whatever the controller writes (3.3, 3.4, 4.6, 4.7, 4.12.3).
pub fn descriptors_await_their_lend()
    ensures commands { CommandsKeepAwaiting }
    ensures events { EventsKeepAwaiting }
    ensures writes { WritesKeepAwaiting }
{}

/// Once they are lent, all of it is framed with their structures; none of them is met yet (4.6, 4.7).
pub fn lend_keeps_now()
    ensures { LendKeepsNow }
{}

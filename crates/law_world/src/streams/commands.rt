//! Commands in worlds of bulk and control endpoints (EHCI 1.0, 3.5, 4.6, 4.8 and 4.10; USB 2.0, 5.8 and 8.6): all that such a world carries from one event to
//! the next stays at each command, whether it is accepted or refused.
ghost use Rattle.law_world.specs.streams.Laws.{CommandKeepsWhole};

/// Each command leaves a whole world whole: one that is refused is a line of the report, an endpoint that is opened, or a get, put or request, is still to be lent, and
/// one that is cancelled is still to be unlinked.
pub fn command_keeps_whole()
    ensures { CommandKeepsWhole }
{}

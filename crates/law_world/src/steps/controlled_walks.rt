//! Where the walk of the ring may stand, along every event of the controller (EHCI 1.0, 4.6, 4.8 and 4.8.2): its cursor and the copy in hand name only
//! queue heads that it may reach, whether the event is one of the ring's walk or of a frame's chain, begins or ends a microframe, or is the fault; and so
//! along every event and command of a world.
//!
//! The module has no code of its own: each function is a law over the definitions of `hc_core`, `walk_members` and `bus_world`, and its body is empty.

pub mod laws;
pub mod worked;

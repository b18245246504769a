//! What each step of a run does to streams, requests and memory in a world of driver, controller and bus (EHCI 1.0, 4.6 to 4.12; USB 2.0,
//! 8.6).
//!
//! - `closed_streams`: The stream of an endpoint that was cancelled is closed (EHCI 1.0, 4.8.2; USB 2.0, 5.8): the walk doesn't meet its queue head any more,
//!   and no other queue head asks the endpoint or sends to it.
//! - `control_queues`: What is known of a driver's queues, also of those of control endpoints that answered STALL (EHCI 1.0, 3.6.3, 4.10.2 and 4.10.3; USB 2.0,
//!   8.5.3.4): links lead to later qTDs, a queue stops at a qTD that was halted, and what the driver has still to store is what halted queue heads are owed.
//! - `controlled_walks`: Where the walk of the ring may stand, along every event of the controller (EHCI 1.0, 4.6, 4.8 and 4.8.2): its cursor and the copy in
//!   hand name only queue heads that it may reach, whether the event is one of the ring's walk or of a frame's chain, begins or ends a microframe, or is the
//!   fault; and so along every event and command of a world.
//! - `endpoint_releases`: A driver gives back the blocks of an endpoint that has left the ring, while the controller walks the ring (EHCI 1.0, 4.8.2 and 4.10).
//! - `left_queues`: What stands of a driver's queues while endpoints leave the ring (EHCI 1.0, 4.8.2 and 4.10): what is fed of them, which the walk may meet,
//!   how far it has gone along them, and where it stops.
//! - `receiving_runs`: Runs of scripts of which each command is of some kind (USB 2.0, 5.8): what each event and each such command keeps holds at each moment.
//! - `row_laws`, `row_worked`: The streams of the OUT endpoints of a ring, at each step of a driver and of the controller (EHCI 1.0, 3.5, 4.6, 4.8 and 4.10;
//!   USB 2.0, 8.6): whatever is stored, lent, opened, harvested or given back, both sides of each pipe agree, and what was harvested, and then what is still to
//!   be, are the bytes that the host knows to be taken.
//! - `stream_laws`: The streams of the IN endpoints of a world (EHCI 1.0, 4.6, 4.8 and 4.10; USB 2.0, 8.6): each event of the controller leaves both sides of
//!   each pipe agreed and what is reported right, so that at any moment the bytes reported of an endpoint begin the stream that its device was given.
//! - `unlinked_streams`: The store by which a cancelled endpoint's queue head leaves the ring (EHCI 1.0, 4.8.2; USB 2.0, 8.6): the queue head before it leads
//!   past it, and the walk, which may still meet it, finds all queues as they were.
//! - `world_bytes`: What a world hears is bytes (USB 2.0, 8.3.4): at each moment of the run of each script that a text spells, whatever the controller would
//!   ask its bus now, each number in the data that it hears is below 256.
//!
//! The module has no code of its own: each function is a law, and its body is empty.

pub mod closed_streams;
pub mod control_queues;
pub mod controlled_walks;
pub mod endpoint_releases;
pub mod left_queues;
pub mod row_laws;
pub mod row_worked;
mod stream_laws;
pub mod unlinked_streams;
pub mod world_bytes;

pub use stream_laws::{the_controller_leaves_the_streams, what_is_reported_begins_the_stream};

//! The queues of a driver's endpoints under the controller's walk (EHCI 1.0, 3.5, 3.6, 4.8 and 4.10; USB 2.0, 8.6): their streams, how
//! far the walk has gone along them, where they end, and what commands, lends and returns of their structures leave.
//!
//! - `cancelled_bytes`: The line of a cancelled endpoint (EHCI 1.0, 4.8.2 and 4.10; USB 2.0, 8.6): when it is given back, the driver tells of its transfers
//!   that aren't reported all bytes that were moved, those of the qTDs that were harvested and those that the overlay or the tokens count.
//! - `commanded_queues`: Accepted commands over the queues of a driver of bulk and control endpoints (EHCI 1.0, 3.5.4, 3.6.2, 4.8 and 4.10): the new queue head
//!   is in its ranges, and fronts, tails and buffers stay.
//! - `fed_events`: A driver's queues beside the controller (EHCI 1.0, 3.5 and 4.10): what is told of the pieces of its transfers, and that the ends of its
//!   queues are last, stays at each event of the controller.
//! - `fed_harvests`: Harvests and other rows of a driver that store no word leave what is fed of each endpoint's queue (EHCI 1.0, 4.10).
//! - `fed_lends`: Commands and lends beside queues that are fed (EHCI 1.0, 3.5, 3.6 and 4.10).
//! - `harvest_laws`: Harvests of a driver of bulk and control endpoints (EHCI 1.0, 4.8 and 4.10; USB 2.0, 8.6): what its report tells of each queue that has a
//!   stream, and what is held back.
//! - `idle_tails`: The tail of each queue while no command is unfinished (EHCI 1.0, 4.10.2): the inactive qTD at its end, past which the walk doesn't go.
//! - `leaving_drivers`: What a driver of bulk and control endpoints keeps while endpoints are cancelled, unlinked, rung for, cleared and given back (EHCI 1.0,
//!   4.8.2): what is to be given back belongs to endpoints that a walk may still meet, what was told of an endpoint that was given back stays, and what each
//!   step leaves as it was.
//! - `lent_fronts`: The lend of a transfer leaves the front of each queue, and all that was told of its structures (EHCI 1.0, 3.5 and 4.10.2).
//! - `mended_heads`: The stores by which a driver mends the queue head of a stalled control endpoint (EHCI 1.0, 3.6.3, 4.8 and 4.10.3; USB 2.0, 8.5.3.4),
//!   beside the controller's walk: words 4, 5 and 6 of the queue head, one at an event.
//! - `open_laws`: An endpoint that is opened (EHCI 1.0, 4.8.1; USB 2.0, 8.6): its command, its lend, and the store that links it.
//! - `open_names`: The names of the endpoints of a driver of the asynchronous schedule: no two have one address, one number and one way (EHCI 1.0, 3.6.2; USB
//!   2.0, 8.3.2).
//! - `publish_laws`: The stores by which a transfer is published (EHCI 1.0, 3.5, 4.6 and 4.10.2), beside the controller.
//! - `reached_rings`: The members of a ring are exactly the queue heads that its walk may reach (EHCI 1.0, 4.8 and 4.8.2): the head, those in the ring, and
//!   those that have left since the last answered doorbell was rung.
//! - `released_queues`: The blocks of a transfer that was harvested are given back, while the controller walks the ring and the frames (EHCI 1.0, 4.6 and
//!   4.10).
//! - `released_tails`: The tails of queues where a harvested transfer's blocks are given back (EHCI 1.0, 4.10 and 4.10.2).
//! - `shared_memory`: A driver and a controller over one memory (EHCI 1.0, 3, 4.6, 4.8 and 4.10): where the controller runs over a ring that is told by the
//!   structures that the driver has lent, each of its events writes elsewhere than where anything of the driver has to stay, and so both keep all that they
//!   need.
//! - `stalled_fronts`: Fronts of queues where a control endpoint answered STALL (EHCI 1.0, 4.10.2 and 4.10.3; USB 2.0, 8.5.3.4).
//! - `standing_fronts`: How far the walk has gone along the queues of a driver, along its run (EHCI 1.0, 4.10.2).
//! - `told_endpoints`: What the lines of a driver's report tell of each endpoint (EHCI 1.0, 4.10; USB 2.0, 8.6): a qTD that is harvested adds its bytes, held
//!   back until the line of its transfer, and a line adds no other bytes than those; nothing is told of an endpoint after its end.
//! - `whole_sends`: What is sent to an OUT endpoint of a ring, qTD by qTD (EHCI 1.0, 4.10.2 to 4.10.6): the controller ends a qTD once all its bytes were sent,
//!   or halts the queue head, and takes the next one; so what was sent, and the packet that is sent next, begin the bytes of all published qTDs.
//!
//! The crate has no code of its own: each function is a law, and its body is empty.
#![tactic(auto)]

pub mod cancelled_bytes;
pub mod commanded_queues;
pub mod fed_events;
pub mod fed_harvests;
pub mod fed_lends;
pub mod harvest_laws;
pub mod idle_tails;
pub mod leaving_drivers;
pub mod lent_fronts;
pub mod mended_heads;
pub mod open_laws;
pub mod open_names;
pub mod publish_laws;
pub mod reached_rings;
pub mod released_queues;
pub mod released_tails;
pub mod shared_memory;
pub mod stalled_fronts;
pub mod standing_fronts;
pub mod told_endpoints;
pub mod whole_sends;

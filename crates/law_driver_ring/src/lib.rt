//! What a driver's rows do to the structures of its queues (EHCI 1.0, 3.5, 3.6, 4.8 and 4.10), as laws over its content and over a ring:
//! lends, stores and returns.
//!
//! - `accept_laws`: Accepted commands of a driver over the structures that it has lent (EHCI 1.0, 4.8 and 4.10): they take runs and write in them, which are
//!   lent later.
//! - `fed_queues`: What the structures of each endpoint's queue are by a driver's content (EHCI 1.0, 3.5, 3.6 and 4.10): the qTD and the buffer of each piece
//!   of its transfers, the inactive qTD at its end, and the order in which they are worked on.
//! - `harvested_streams`: What a harvest reads (EHCI 1.0, 3.5.4 and 4.10): of a qTD that is done a driver reads exactly the bytes that were moved.
//! - `lend_laws`: The lend of new structures over a ring that a driver drives (EHCI 1.0, 4.8.1 and 4.10).
//! - `part_laws`: A driver's commands and events over memory that is told by its structures (EHCI 1.0, 4.8 and 4.10): what they leave of it.
//! - `release_laws`, `release_worked`: A driver gives back the blocks of its transfers, while the controller walks the ring (EHCI 1.0, 4.10).
//! - `told_harvests`: What a driver reports of the qTDs that it harvests (EHCI 1.0, 3.5.4 and 4.10): the bytes that were moved of each, once and in order;
//!   until a transfer is done they are held back, as notes and in buffers that no event changes any more.
//! - `transfer_laws`, `transfer_worked`: A transfer is accepted and its structures are lent, over a ring that a driver drives (EHCI 1.0, 3.5 and 4.10).
//! - `unlink_laws`: A queue head leaves a ring that a driver drives (EHCI 1.0, 4.8.2): the link before it is stored, and once the doorbell was answered the
//!   walk doesn't meet it any more.
//! - `walk_members`: Where a walk of the ring may go (EHCI 1.0, 4.8 and 4.8.2): its cursor and the copy in hand name the head, a queue head in the ring, or one
//!   that has left since the last answered doorbell was rung, and so does the copy's link, whatever was stored since the copy was read.
//!
//! The crate has no code of its own: each function is a law, and its body is empty.
#![tactic(auto)]

pub mod accept_laws;
pub mod fed_queues;
pub mod harvested_streams;
pub mod lend_laws;
pub mod part_laws;
pub mod release_laws;
pub mod release_worked;
pub mod told_harvests;
pub mod transfer_laws;
pub mod transfer_worked;
pub mod unlink_laws;
pub mod walk_members;

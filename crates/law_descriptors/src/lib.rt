//! Isochronous descriptors and queue heads beside each other in the memory of a driver (EHCI 1.0, 3.3, 3.4, 4.6 and 4.7), under both
//! walks.
//!
//! - `chained_laws`: The endpoint whose members a command unlinks is in its frames until the command is finished (EHCI 1.0, 4.6 and 4.7).
//! - `coming_laws`: A descriptor that waits in its frame while a command links members (EHCI 1.0, 4.6 and 4.7).
//! - `command_laws`, `command_worked`: A command with isochronous descriptors beside a ring and the frames that a controller walks (EHCI 1.0, 4.6 to 4.8, 4.10
//!   and 4.12.3).
//! - `descriptor_links`: The links that isochronous descriptors are given before they are lent (EHCI 1.0, 3.1, 3.3.1, 4.6 and 4.7).
//! - `frame_keeps`: What an event of the walk of the frames keeps of the structures in memory, and so of their words (EHCI 1.0, 3, 4.6, 4.7.1, 4.10 and
//!   4.12.3): there are the same structures, each in its place, and no event writes their links or what a driver alone sets.
//! - `given_laws`, `given_worked`: What is given back of isochronous descriptors beside a ring and the frames that a controller walks (EHCI 1.0, 2.3.4, 3.3, 3.4 and 4.6).
//! - `kept_frames`: What each event of the controller keeps of structures and leaves of memory, where it walks a ring and the frames (EHCI 1.0, 3, 4.6 to 4.10
//!   and 4.12.3).
//! - `lend_laws`, `lend_worked`: Isochronous descriptors are accepted and lent, beside what memory tells already (EHCI 1.0, 3.3, 3.4, 4.7 and 4.12.3).
//! - `list_beside`: The frame list of a driver beside what the controller writes (EHCI 1.0, 3.1, 3.3.1, 3.4.1, 3.6.1 and 4.6): no event of it writes an element
//!   of the list or the link of a member, whether it walks a ring or the frames.
//! - `part_laws`, `part_worked`: The isochronous descriptors of a driver beside its queues (EHCI 1.0, 3, 4.6, 4.7, 4.8 and 4.12.3): which of them stand in
//!   memory, with their buffers, that one memory is told by both, and what an event of the controller leaves of them.
//! - `queue_events`: A driver's queues beside a controller that walks a ring and the frames (EHCI 1.0, 3.5, 3.6 and 4.6 to 4.10), wherever their queue heads
//!   stand.
//! - `queue_laws`, `queue_worked`: The walk of a ring beside isochronous descriptors (EHCI 1.0, 4.8 and 4.10).
//! - `queued_laws`: What a command with descriptors links next (EHCI 1.0, 4.6 and 4.7).
//! - `row_laws`, `row_worked`: Whom the walk of the frames may meet, by what a driver has (EHCI 1.0, 3.1, 3.3, 3.4, 3.6, 4.6 and 4.7): the members of its frame
//!   list, and within one microframe those that were unlinked in it.
//! - `store_laws`, `store_worked`: The driver's own stores of its frame list, beside both walks (EHCI 1.0, 3.1, 3.3.1, 3.4.1, 3.6.1 and 4.6).
//!
//! The crate has no code of its own: each function is a law, and its body is empty.
#![tactic(auto)]

pub mod chained_laws;
pub mod coming_laws;
pub mod command_laws;
pub mod command_worked;
pub mod descriptor_links;
pub mod frame_keeps;
pub mod given_laws;
pub mod given_worked;
pub mod kept_frames;
pub mod lend_laws;
pub mod lend_worked;
pub mod list_beside;
pub mod part_laws;
pub mod part_worked;
pub mod queue_events;
pub mod queue_laws;
pub mod queue_worked;
pub mod queued_laws;
pub mod row_laws;
pub mod row_worked;
pub mod store_laws;
pub mod store_worked;

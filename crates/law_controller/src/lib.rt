//! One event of the controller, in the ring or in the frames (EHCI 1.0, 4.4 to 4.12): which words it reads and writes, and what it leaves
//! of all others.
//!
//! - `aligned_copies`: Addresses that the controller follows are multiples of 32 (EHCI 1.0, 3.1, 3.3.1, 3.4.1, 3.5.1, 3.6, 4.6 and 4.8), at each moment and
//!   whatever stands in memory: what it has in hand, and what its links lead to.
//! - `controlled_streams`: The streams of a ring's endpoints under the controller and its driver (EHCI 1.0, 4.6, 4.8 and 4.10; USB 2.0, 8.6): from the store
//!   that opens them to the return of their qTDs.
//! - `controller_writes`: What an event of the controller leaves of memory (EHCI 1.0, 3.6, 4.8 and 4.10): over a ring of queue heads, and a frame list without
//!   structures or a periodic schedule that is off, it writes words of Lent blocks alone, and of no queue head its first three.
//! - `event_places`: Where an event of the controller may write (EHCI 1.0, 3.3.2, 3.4.3, 3.6.3, 4.7.1, 4.10.2 and 4.10.4 to 4.10.6), whatever stands in memory:
//!   the overlay of the queue head in hand and its current qTD's token, the word of the iTD's microframe, words 3 to 5 of the siTD, and the words of the bytes
//!   that were heard.
//! - `frame_control`: The controller over a ring of queue heads and the frames (EHCI 1.0, 4.1, 4.6 to 4.10 and 4.12.3): each of its events begins a microframe,
//!   or is one of the ring's walk or of the walk of the frames, and leaves both; where nothing is met, it is the controller over a ring alone.
//! - `frame_stores`: What a driver's stores, lends and returns of runs leave of the frames, and of a ring beside them, while the controller walks them (EHCI
//!   1.0, 3.1, 3.3.1, 3.4.1, 3.6.1 and 4.6 to 4.10).
//! - `lent_reads`: What an event of the controller reads (EHCI 1.0, 2.3.2, 4.6 and 4.10): words of Lent blocks alone.
//! - `lent_writes`: What an event of the controller writes (EHCI 1.0, 4.6 to 4.12): words of Lent blocks alone, whatever stands in memory and whatever is
//!   heard, for queue heads, iTDs and siTDs.
//!
//! The crate has no code of its own: each function is a law, and its body is empty.
#![tactic(auto)]

pub mod aligned_copies;
pub mod controlled_streams;
pub mod controller_writes;
pub mod event_places;
pub mod frame_control;
pub mod frame_stores;
pub mod lent_reads;
pub mod lent_writes;

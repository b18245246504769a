//! The queues that a driver writes for a command, while no one else sees them (EHCI 1.0, 4.8 and 4.10): the runs of a transfer are taken
//! from memory, its qTDs and the bytes that it sends are written, and so are the queue head of a new endpoint and the opening ring.
//!
//! `take_transfer` and `take_endpoint` take the runs that a command needs, or none of them, `take_buffer` and `take_each` as far as they
//! are found; `write_transfer` and `write_endpoint` write
//! them; `open_ring` makes the frame list and the ring of one. Their values are those of specs/Offers.antt and specs/Opening.antt of
//! `drv_table`. Beside it stand `drv_words`, which makes the structures, and `mem_runs`, which has the runs.
#![tactic(auto)]

mod bytes;
mod endpoints;
mod notes;
mod opening;
mod runs;
mod stages;
mod transfers;

pub use endpoints::{newest, oldest, write_endpoint, write_interrupt_endpoint};
pub use opening::open_ring;
pub use runs::{take_buffer, take_each, take_endpoint, take_transfer};
pub use transfers::{Queued, write_transfer};

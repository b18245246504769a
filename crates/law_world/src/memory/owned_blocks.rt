//! No run of blocks leaks (EHCI 1.0, 3, 4.8.2 and 4.10): each run that a driver has is that of the frame list, of the head of the ring, of a queue head or an
//! inactive qTD of an endpoint that wasn't given back, or of a qTD, an isochronous descriptor or a buffer of a transfer that wasn't. So it's known of each
//! block of memory whether it is Lent, at each moment of every script.
//!
//! The module has no code of its own: each function is a law over the definitions of `drv_table` and `bus_world`, and its body is empty.

mod laws;
mod worked;

pub use laws::{
    command_owns_all, each_moment_owns_its_blocks, event_owns_all, lent_blocks_are_needed,
    needed_runs_are_lent, new_driver_owns_all,
};
pub use worked::{a_run_of_nobody, runs_of_descriptors, runs_of_queues};

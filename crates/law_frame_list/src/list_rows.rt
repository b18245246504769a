//! Rows of the driver and the frame list (EHCI 1.0, 3.6.3 and 4.6): the stores that a stalled endpoint is owed go into its queue head, so the words of
//! memory stand for the list as before; a harvested isochronous descriptor is unlinked by one store, and they stand for the list without it.
//!
//! The module has no code of its own: each function is a law over the definitions of `drv_table`, and its body is empty.

mod laws;
mod worked;

pub use laws::{mends_go_into_queue_heads, mends_keep_it_standing, unlinks_keep_it_standing};
pub use worked::stores_of_a_stall;

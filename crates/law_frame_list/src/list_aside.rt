//! Events of the driver that store elsewhere than in the frame list (EHCI 1.0, 4.6, 4.8 and 4.10): what they lend, publish, link into the ring, unlink
//! from it and give back leaves the words of the frame list, so these stand for it as before.
//!
//! The module has no code of its own: each function is a law over the definitions of `drv_table`, and its body is empty.

mod laws;
mod worked;

pub use laws::events_elsewhere_keep_it_standing;
pub use worked::which_events_store_elsewhere;

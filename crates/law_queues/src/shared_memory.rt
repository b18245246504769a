//! A driver and a controller over one memory (EHCI 1.0, 3, 4.6, 4.8 and 4.10): where the controller runs over a ring that is told by the structures
//! that the driver has lent, each of its events writes elsewhere than where anything of the driver has to stay, and so both keep all that they need.
//!
//! The module has no code of its own: each function is a law over the definitions of `hc_core` and `drv_table`, and its body is empty.

mod laws;

pub use laws::{
    quiet_events_keep_it_shared, the_controller_keeps_it_shared, the_controller_writes_elsewhere,
    the_opening_is_shared,
};

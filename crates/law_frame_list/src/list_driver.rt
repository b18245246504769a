//! The frame list of a driver (EHCI 1.0, 3.1, 3.3.1 and 4.6): at the opening, after each event of the driver and after each accepted command the words of
//! memory stand for it, also while members are linked and unlinked.
//!
//! The module has no code of its own: each function is a law over the definitions of `drv_table`, and its body is empty.

mod laws;
mod worked;

pub use laws::{a_new_driver_keeps_its_list, commands_keep_the_list, events_keep_the_list};
pub use worked::nothing_is_owed_at_first;

//! The stores by which a command links or unlinks members of the frame list (EHCI 1.0, 4.6): after each of them the words of memory stand for the list,
//! with the one member that is half linked or half unlinked, or with the next one that is begun.
//!
//! The module has no code of its own: each function is a law over the definitions of `drv_table`, and its body is empty.

mod laws;
mod worked;

pub use laws::{a_step_keeps_the_list_standing, steps_of_interrupt_endpoints_keep_it_standing};
pub use worked::a_step_of_an_unlinking;

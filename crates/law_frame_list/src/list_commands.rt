//! The frame list while endpoints are opened and cancelled (EHCI 1.0, 4.6, 4.8 and 4.10): once such a command was accepted the words of memory stand for
//! it, with the first of the members that a cancel unlinks begun.
//!
//! The module has no code of its own: each function is a law over the definitions of `drv_table`, and its body is empty.

mod laws;
mod worked;

pub use laws::opens_and_cancels_keep_it_standing;
pub use worked::a_cancel_begins_to_unlink;

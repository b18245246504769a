//! What a driver gives back is Free (EHCI 1.0, 4.8.2, 4.10 and 4.12): each block of a transfer that was harvested, of a queue head and its transfers
//! once the advance interrupt was heard for it, and of what was unlinked from the frame list once its frame has passed.
//!
//! The module has no code of its own: each function is a law over the definitions of `drv_table`, and its body is empty.

mod laws;
mod worked;

pub use laws::what_a_release_leaves_is_free;
pub use worked::a_run_of_two_blocks;

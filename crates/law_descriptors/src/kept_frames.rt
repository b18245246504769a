//! What each event of the controller keeps of structures and leaves of memory, where it walks a ring and the frames (EHCI 1.0, 3, 4.6 to 4.10 and 4.12.3).
//!
//! The module has no code of its own: each function is a law over the definitions of `frame_control` and `frame_keeps`, and its body is empty.

mod laws;
mod worked;

pub use laws::{each_walk_leaves_the_other, events_keep_both, events_leave_words};
pub use worked::a_frame_begins;

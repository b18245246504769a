//! Fronts of the queues of interrupt endpoints, whose queue heads stand in the frames (EHCI 1.0, 4.6 and 4.10): how far each has gone along its qTDs.
//!
//! The module has no code of its own: each function is a law over the definitions of `specs/`, and its body is empty.

mod laws;
mod split_worked;
mod worked;

pub use laws::{each_event_of_the_frames, however_many_events};
pub use split_worked::{a_missed_split_halts_the_queue, a_start_split_leaves_the_front};
pub use worked::{a_halted_queue_in_a_frame, a_queue_in_a_frame, the_walk_meets_a_queue};

//! What a driver's stores, lends and returns of runs leave of the frames, and of a ring beside them, while the controller walks them (EHCI 1.0, 3.1, 3.3.1,
//! 3.4.1, 3.6.1 and 4.6 to 4.10).
//!
//! The module has no code of its own: each function is a law over the definitions of `specs/`, and its body is empty.

mod both;
mod laws;
mod worked;

pub use both::{
    begin_is_at_element, begin_meets_fewer, fewer_are_met_beside_a_ring,
    lends_and_returns_leave_both, more_are_met_beside_ring, other_owners_leave_ring,
    stores_leave_both,
};
pub use laws::{
    fewer_are_met, lends_and_returns_leave_the_frames, more_are_met, stores_leave_the_frames,
    what_a_met_part_may_become,
};
pub use worked::{a_chain_is_ended, a_chain_of_two_is_ended, a_frame_is_emptied};

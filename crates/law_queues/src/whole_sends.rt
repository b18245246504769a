//! What is sent to an OUT endpoint of a ring, qTD by qTD (EHCI 1.0, 4.10.2 to 4.10.6): the controller ends a qTD once all its bytes were sent, or halts
//! the queue head, and takes the next one; so what was sent, and the packet that is sent next, begin the bytes of all published qTDs.
//!
//! The module has no code of its own: each function is a law over the definitions of `law_ring`, and its body is empty.

mod laws;
mod worked;

pub use laws::{
    a_step_keeps_it_whole, a_store_keeps_it_whole, beginning_is_whole, each_event_sends_whole,
    idle_takes_nothing, walk_keeps_buffers, what_is_in_hand_ends_whole,
    what_was_sent_begins_the_bytes, what_was_sent_stands_before_the_tail,
    what_was_taken_begins_the_bytes,
};

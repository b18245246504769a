//! What steps of queues leave of the streams of endpoints at high speed, beside all others (EHCI 1.0, 4.6, 4.8 and 4.10; USB 2.0, 5.7,
//! 5.8 and 8.6).
//!
//! The module has no code of its own: each function is a law over the definitions of `drv_table` and `bus_world`, and its body is empty.

mod laws;
mod worked;

pub use laws::{
    an_open_begins_pipes, each_event_keeps_pipes, each_step_keeps_pipes, stays_tells_one_hand,
};
pub use worked::{a_stream_begins, a_stream_left_out_is_asked, endpoints_ask_their_way};

//! The requests of all control endpoints of a ring at once (EHCI 1.0, 4.10; USB 2.0, 8.5.3). Each endpoint has a queue of them, each laid out as a
//! SETUP, a data and a status qTD, and the status of each leads to the SETUP of the next one. Over any bus whose control endpoints answer by their
//! stage, and that loses packets as it likes, each event of the walk is at most one transaction of one of the requests under way, or the advance of a
//! queue head to its next request, and how host and device stand to each other is kept. So a request that memory shows to be done was acted on exactly
//! once, with all its data in the buffer of its data qTD, a halted one at most once, and those behind a halted one are never begun.
//! Between requests a queue is at rest: no event asks anything of it, until a store publishes a request at its end.
//!
//! The module has no code of its own: each function is a law over the definitions of `law_ring` and `law_request`, and its body is empty.

mod laws;
mod rest_laws;
pub mod rest_worked;
pub mod worked;

pub use laws::{
    a_request_opens_its_window, an_ended_request_was_acted_on_once, each_event_keeps_the_windows,
    each_request_before_was_acted_on_once, each_window_is_right,
    requests_behind_a_halted_one_are_not_begun, requests_open_their_windows,
    windows_are_those_of_a_run,
};
pub use rest_laws::{
    a_queue_at_rest_is_spared, a_queue_at_rest_stays_so, a_queue_comes_to_rest, queue_grows,
};

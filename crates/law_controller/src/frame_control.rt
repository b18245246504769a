//! The controller over a ring of queue heads and the frames (EHCI 1.0, 4.1, 4.6 to 4.10 and 4.12.3): each of its events begins a microframe, or is one of the
//! ring's walk or of the walk of the frames, and leaves both; where nothing is met, it is the controller over a ring alone.
//!
//! The module has no code of its own: each function is a law over the definitions of `specs/`, and its body is empty.

mod laws;
mod worked;

pub use laws::{
    a_frameless_list_has_nothing_met, each_event_of_the_controller_over_both,
    frames_without_structures_are_frameless, joined_is_asked, walks_move_streams,
    what_neither_walk_meets_stays,
};
pub use worked::{a_microframe_moves_nothing, both_are_run, the_link_of_an_element};

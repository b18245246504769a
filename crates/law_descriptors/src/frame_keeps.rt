//! What an event of the walk of the frames keeps of the structures in memory, and so of their words (EHCI 1.0, 3, 4.6, 4.7.1, 4.10 and 4.12.3): there are the
//! same structures, each in its place, and no event writes their links or what a driver alone sets.
//!
//! The module has no code of its own: each function is a law over the definitions of `specs/`, and its body is empty.

mod laws;
mod worked;

pub use laws::{
    descriptors_keep_their_bytes, each_event_keeps_structures, what_is_kept, words_that_stay,
};
pub use worked::{a_written_itd_keeps_its_fields, a_written_itd_leaves_its_words};

//! The frame list leads to its own members alone (EHCI 1.0, 3.1, 3.3.1 and 4.6): where the words of memory stand for it, also between two stores of a linking
//! or an unlinking, the link of each element and of each member leads to a member that stands in that frame, or ends the chain. So whoever follows the links
//! of a frame from its element meets members of that frame and nothing else.
//!
//! The module has no code of its own: each function is a law over the definitions of `list_stands` and `frame_words`, and its body is empty.

mod laws;
mod worked;

pub use laws::{
    a_walk_meets_members_alone, elements_lead_to_members, links_tell_structures,
    members_lead_to_members, members_stand_in_their_first_frame,
};
pub use worked::a_half_linked_queue_head;

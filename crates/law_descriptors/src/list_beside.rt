//! The frame list of a driver beside what the controller writes (EHCI 1.0, 3.1, 3.3.1, 3.4.1, 3.6.1 and 4.6): no event of it writes an element of the list or
//! the link of a member, whether it walks a ring or the frames.
//!
//! The module has no code of its own: each function is a law over the definitions of `specs/`, and its body is empty.

mod laws;
mod worked;

pub use laws::{
    a_driver_has_its_links, descriptors_beside_a_list, events_leave_driver, links_of_a_list_stay,
    list_is_kept, told_stays, written_elsewhere,
};
pub use worked::a_list_has_its_links;

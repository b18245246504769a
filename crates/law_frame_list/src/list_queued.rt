//! The isochronous descriptors of a command in memory (EHCI 1.0, 3.3.3, 4.6 and 4.7): before they are lent each is given a link to what stands first in its frame;
//! no two of them have one frame, so each still leads there when it is linked, and the words of memory stand for the frame list after each store.
//!
//! The module has no code of its own: each function is a law over the definitions of `drv_table`, and its body is empty.

mod laws;
mod worked;

pub use laws::{lent_descriptors_keep_it_standing, linked_descriptors_keep_it_standing};
pub use worked::descriptors_lead_on;

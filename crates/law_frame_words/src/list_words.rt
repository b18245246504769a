//! The words that a frame list needs (EHCI 1.0, 3.1, 3.3.1 and 4.6): wherever its elements and the links of its members are left as they were, the words
//! still stand for the list, also while a member is linked or unlinked.
//!
//! The module has no code of its own: each function is a law over the definitions of `frame_words`, and its body is empty.

mod laws;
mod worked;

pub use laws::{a_store_elsewhere_leaves_them, what_leaves_its_words_leaves_the_list};
pub use worked::one_queue_head;

//! Chains of the frame list as words of memory (EHCI 1.0, 3.1, 3.7 and 4.6).
//!
//! - `frame_words`: The chains of the periodic frame list as one reads them from words, at each store that links or unlinks a member (EHCI 1.0, 4.6).
//! - `list_words`: The words that a frame list needs (EHCI 1.0, 3.1, 3.3.1 and 4.6): wherever its elements and the links of its members are left as they were,
//!   the words still stand for the list, also while a member is linked or unlinked.
//!
//! The crate has no code of its own: each function is a law, and its body is empty.
#![tactic(auto)]

pub mod frame_words;
pub mod list_words;

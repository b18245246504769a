//! A store of a driver's frame list, made in memory (EHCI 1.0, 4.6): it is made, since its word lies in the list or in a member's own run, and the words stand for
//! the list as before.
//!
//! The module has no code of its own: each function is a law over the definitions of `drv_table` and `frame_words`, and its body is empty.

mod laws;

pub use laws::each_store_of_the_list_is_made;

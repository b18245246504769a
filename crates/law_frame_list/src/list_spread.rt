//! The members of a driver's frame list stand apart (EHCI 1.0, 3.3, 3.4, 3.6 and 4.6): each begins in a block of its own outside the list, and no name is the
//! end's. So its link is a word that no other member's name leads to.
//!
//! The module has no code of its own: each function is a law over the definitions of `drv_table` and `frame_words`, and its body is empty.

mod laws;

pub use laws::members_share_no_block;

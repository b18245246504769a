//! Masks of the eight microframes of a frame: of start-splits, of complete-splits, and of those that were done (EHCI 1.0, 3.4.2, 3.6.2 and
//! 4.12.2.4). Bit u of a mask is microframe u.
#![tactic(auto)]

mod masks;
pub mod worked;

pub use masks::{has, is_after_first, is_first, is_last, lacks, with};

//! Isochronous transfer descriptors in the controller's hand: read from the words of Lent blocks, and written back (EHCI 1.0, 3.3, 3.4,
//! 4.7.1 and 4.12.3).
//!
//! `read_itd`, `read_sitd`, `write_slot` and `write_state`. The layouts are `itd_sitd`'s, the words `word_mem`'s; queue heads and qTDs
//! stand beside it in `mem_queues`.
#![tactic(auto)]

mod blocks;
pub mod laws;
mod structures;

pub use structures::{read_itd, read_sitd, write_slot, write_state};

//! Queue heads and queue element transfer descriptors in the controller's hand: read from the words of Lent blocks, and written back
//! (EHCI 1.0, 3.5, 3.6 and 4.10).
//!
//! `read_queue_head`, `read_qtd`, `write_overlay` and `write_token`. The layouts are `qh_qtd`'s, the words `word_mem`'s.
#![tactic(auto)]

mod blocks;
pub mod laws;
mod structures;

pub use structures::{read_qtd, read_queue_head, write_overlay, write_token};

//! The bytes of a transfer's buffer in the words of memory (EHCI 1.0, 3.5.4 and 4.10.6): what the controller stores and sends, and what the
//! driver reads back.
//!
//! `hc_store` and `hc_load` are the controller's, `load` is the driver's. The words themselves are `word_mem`'s.
#![tactic(auto)]

mod blocks;
mod pieces;
mod transfers;
pub mod worked;

pub use transfers::{hc_load, hc_store, load};

//! The words of memory that driver and controller share, in blocks that are Free, Kept by the driver or Lent (EHCI 1.0, 3 and 2.3.2).
//!
//! `WordMem` is the memory: the driver takes, lends and releases typed runs of blocks, the controller goes through `hc_read` and `hc_write`
//! alone, or `hc_read_words` and `hc_write_words` for words in a row of one block. `owners` has the laws of the runs in hand: no two of
//! them share a block. Bytes of a buffer stand above it in `mem_bytes`, structures in `mem_queues`.
#![tactic(auto)]

mod blocks;
mod copies;
mod memory;
pub mod owners;
mod scan;
pub mod worked;

pub use blocks::{BlockRun, BlockState, LentRun};
pub use memory::WordMem;

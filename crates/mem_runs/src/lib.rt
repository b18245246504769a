//! The book of a driver's runs of blocks: which run begins in each block, kept by the driver or lent to the controller (EHCI 1.0, 3).
//!
//! `RunBook` takes runs from memory, lends them, writes into them and gives them back. Every call that changes the states of blocks goes
//! by the book, so that memory's blocks stand as the book says (`Stands` of specs/Book.antt). Beside it stands `word_mem`, which has the
//! words; above it the driver knows blocks by their numbers alone.
#![tactic(auto)]

mod book;
mod slots;
pub mod worked;

pub use book::RunBook;
pub use slots::Slot;

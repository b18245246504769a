//! The search of the words that are stored where a queue head is linked or unlinked, by classes of one period and phase (EHCI 1.0, 4.6).
//!
//! `Search` finds them one by one: from a class it goes down to the first class that has a member, or to a frame, and from there up to
//! the next of the two halves that wasn't looked at. Going up reads no class, so a call reads at most eleven; `Steps` counts them.
#![tactic(auto)]

pub mod laws;
mod search;

pub use search::{Classes, Found, Search};

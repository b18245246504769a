//! The tails of queues where a harvested transfer's blocks are given back (EHCI 1.0, 4.10 and 4.10.2).
//!
//! The module has no code of its own: its function is a law over the definitions of `released_queues` and `standing_fronts`, and its body is empty.

pub mod laws;
pub mod worked;

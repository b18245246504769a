//! Worked rows of what both walks visit and of what that costs, which the check computes (EHCI 1.0, 4.4, 4.6, 4.10.2 and 4.12.2; USB 2.0, 5.7 and 5.11.3).
//!
//! The module has no code of its own: each function is a law over those of `visits`, and its body is empty.

pub mod again;
pub mod parts;
pub mod rows;
pub mod splits;

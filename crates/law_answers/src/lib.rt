//! What a driver answers, and why (EHCI 1.0, 4.6 to 4.10): which commands it refuses.
//!
//! - `refusals`: a command is refused for the first cause that stands, and accepted where none does.
//! - `worked`: worked rows.
//!
//! The crate has no code of its own: each function is a law over the definitions of `drv_table`, and its body is empty.
#![tactic(auto)]

pub mod refusals;
pub mod worked;

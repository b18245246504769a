//! The endpoints that the lines of a script open, and their sides on its bus (USB 2.0, 5.5, 5.8, 8.6 and 9.6.6).
//!
//! - `laws`: Each name is that of one endpoint, and a stream has its side on the bus.
//! - `worked`: Worked rows.
//!
//! The crate has no code of its own: each function is a law, and its body is empty.
#![tactic(auto)]

pub mod laws;
pub mod worked;

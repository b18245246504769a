//! Commands and lends beside queues that are fed (EHCI 1.0, 3.5, 3.6 and 4.10).
//!
//! - `lend_laws`, `lend_worked`: The lend of a transfer, beside the streams of a ring's IN endpoints (EHCI 1.0, 3.5 and 4.10).
//! - `command_laws`: Accepted commands leave what is fed of each endpoint's queue (EHCI 1.0, 4.8 and 4.10).
//!
//! The module has no code of its own: each function is a law, and its body is empty.

pub mod command_laws;
pub mod lend_laws;
pub mod lend_worked;

//! The blocks of a transfer that was harvested are given back, while the controller walks the ring and the frames (EHCI 1.0, 4.6 and 4.10).
//!
//! The module has no code of its own: each function is a law over the definitions of `fed_queues`, and its body is empty.

pub mod laws;
pub mod worked;

//! A driver gives back the blocks of an endpoint that has left the ring, while the controller walks the ring (EHCI 1.0, 4.8.2 and 4.10).
//!
//! The module has no code of its own: each function is a law over the definitions of `law_driver`, and its body is empty.

pub mod laws;
pub mod worked;

//! Accepted commands over the queues of a driver of bulk and control endpoints (EHCI 1.0, 3.5.4, 3.6.2, 4.8 and 4.10): the new queue head is in its ranges,
//! and fronts, tails and buffers stay.
//!
//! The module has no code of its own: each function is a law over the definitions of `standing_fronts` and `law_driver`, and its body is empty.

pub mod laws;
pub mod worked;

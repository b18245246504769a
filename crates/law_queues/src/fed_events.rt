//! A driver's queues beside the controller (EHCI 1.0, 3.5 and 4.10): what is told of the pieces of its transfers, and that the ends of its queues are
//! last, stays at each event of the controller.
//!
//! The module has no code of its own: each function is a law over the definitions of `fed_queues` and `controlled_streams`, and its body is empty.

pub mod laws;

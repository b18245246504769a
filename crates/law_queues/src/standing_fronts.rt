//! How far the walk has gone along the queues of a driver, along its run (EHCI 1.0, 4.10.2).
//!
//! The module has no code of its own: each function is a law over the definitions of `released_queues`, and its body is empty.

pub mod laws;

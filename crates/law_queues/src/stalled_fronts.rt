//! Fronts of queues where a control endpoint answered STALL (EHCI 1.0, 4.10.2 and 4.10.3; USB 2.0, 8.5.3.4).
//!
//! The module has no code of its own: its function is a law over the definitions of `released_queues` and `mended_heads`, and its body is empty.

pub mod laws;

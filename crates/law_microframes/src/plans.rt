//! What a driver has placed below its hubs' translators, along a run (USB 2.0, 11.18; EHCI 1.0, 4.12).
//!
//! The module has no code of its own: each function is a law, and its body is empty.

pub mod laws;
pub mod worked;

//! The translators of hubs keep up with the driver's plan, along a run (USB 2.0, 11.14, 11.18 and 11.18.4; EHCI 1.0, 4.12).
//!
//! The module has no code of its own: each function is a law, and its body is empty.

pub mod laws;
pub mod parts;
pub mod texts;
pub mod worked;

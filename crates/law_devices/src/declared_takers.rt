//! The takers of the endpoints that a script opens (USB 2.0, 5.8 and 8.6).
//!
//! The module has no code of its own: its function is a worked row, and its body is empty.

pub mod worked;

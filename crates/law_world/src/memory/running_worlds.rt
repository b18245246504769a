//! Worlds whose controller runs, whatever the script opens (EHCI 1.0, 2.3.1, 2.3.2 and 4.15.2.4): meanwhile Host System Error is 0, and no refusal is counted.
//!
//! The module has no code of its own: each function is a law over the definitions of `bus_world`, and its body is empty.

pub mod laws;

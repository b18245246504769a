//! The lend of a transfer leaves the front of each queue, and all that was told of its structures (EHCI 1.0, 3.5 and 4.10.2).
//!
//! The module has no code of its own: each function is a law over the definitions of `fed_lends`, and its body is empty.

pub mod laws;

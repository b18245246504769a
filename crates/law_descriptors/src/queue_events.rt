//! A driver's queues beside a controller that walks a ring and the frames (EHCI 1.0, 3.5, 3.6 and 4.6 to 4.10), wherever their queue heads stand.
//!
//! The module has no code of its own: each function is a law over the definitions of `specs/`, and its body is empty.

pub mod laws;

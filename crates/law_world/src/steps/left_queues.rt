//! What stands of a driver's queues while endpoints leave the ring (EHCI 1.0, 4.8.2 and 4.10): what is fed of them, which the walk may meet, how far it has gone along
//! them, and where it stops.
//!
//! The module has no code of its own: each function is a law over the definitions of `fed_queues`, and its body is empty.

pub mod laws;
pub mod worked;

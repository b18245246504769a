//! What a driver's report tells of an endpoint that leaves the ring (EHCI 1.0, 4.8.2 and 4.10; USB 2.0, 8.6): until it is given back what was told stands, and
//! then its last line tells all that was moved of it.
//!
//! The module has no code of its own: each function is a law over the definitions of `harvest_laws` and `cancelled_bytes`, and its body is empty.

pub mod laws;
pub mod worked;

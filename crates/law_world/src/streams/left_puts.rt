//! What is told of puts while an endpoint leaves the ring, and once it was given back (EHCI 1.0, 4.8.2 and 4.10): the buffers of puts hold their bytes, what was
//! reported and what is still to be sent are the puts, what is out is sent whole, and what was taken begins the puts.
//!
//! The module has no code of its own: each function is a law over the definitions of `leaving_drivers`, `endpoint_releases` and `put_laws`, and its body is empty.

pub mod laws;
pub mod worked;

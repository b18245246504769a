//! The control requests of a driver's endpoints are those of the ring's queue heads (EHCI 1.0, 3.5, 3.6 and 4.10; USB 2.0, 8.5.3): each is a transfer, and is
//! found by the place of its SETUP.
//!
//! The module has no code of its own: each function is a law over the definitions of `drv_table`, `ring_requests` and `world_requests`, and its body is empty.

pub mod laws;
pub mod worked;

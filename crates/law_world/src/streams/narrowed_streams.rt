//! Of a driver of bulk and control endpoints several have left the ring, and the doorbell is answered (EHCI 1.0, 4.8.2): the walk doesn't meet their queue heads any more, and just
//! their streams are closed, IN and OUT. No other endpoint has the name of one of them.
//!
//! The module has no code of its own: each function is a law over the definitions of `endpoint_lives`, `fed_queues` and `closed_streams`, and its body is empty.

pub mod worked;

//! The stores by which a driver mends the queue head of a stalled control endpoint (EHCI 1.0, 3.6.3, 4.8 and 4.10.3; USB 2.0, 8.5.3.4), beside the controller's
//! walk: words 4, 5 and 6 of the queue head, one at an event. Until the third it is halted, so the walk passes it by.
//!
//! The module has no code of its own: each function is a law over the definitions of `drv_table`, `law_driver` and `law_ring`, and its body is empty.

pub mod laws;
pub mod worked;

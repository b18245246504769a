//! What is known of a driver's queues, also of those of control endpoints that answered STALL (EHCI 1.0, 3.6.3, 4.10.2 and 4.10.3; USB 2.0, 8.5.3.4): links
//! lead to later qTDs, a queue stops at a qTD that was halted, and what the driver has still to store is what halted queue heads are owed.
//!
//! The module has no code of its own: each function is a law over the definitions of `mended_heads` and `law_ring`, and its body is empty.

pub mod laws;
pub mod worked;

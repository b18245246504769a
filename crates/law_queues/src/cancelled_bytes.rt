//! The line of a cancelled endpoint (EHCI 1.0, 4.8.2 and 4.10; USB 2.0, 8.6): when it is given back, the driver tells of its transfers that aren't reported all
//! bytes that were moved, those of the qTDs that were harvested and those that the overlay or the tokens count.
//!
//! The module has no code of its own: each function is a law over the definitions of `drv_table` and `law_ring`, and its body is empty.

pub mod laws;
pub mod worked;

//! What the structures of each endpoint's queue are by a driver's content (EHCI 1.0, 3.5, 3.6 and 4.10): the qTD and the buffer of each piece of its transfers,
//! the inactive qTD at its end, and the order in which they are worked on.
//!
//! The module has no code of its own: each function is a law over the definitions of `drv_table` and `lent_structures`, and its body is empty.

pub mod worked;

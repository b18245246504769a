//! The stores by which a transfer is published (EHCI 1.0, 3.5, 4.6 and 4.10.2), beside the controller.
//!
//! - `qtd_laws`, `qtd_worked`: A qTD that is published by a driver beside the controller (EHCI 1.0, 3.5, 4.6 and 4.10.2): each of its eight stores leaves the
//!   ring, and whatever the controller does between them the next one can be made.
//! - `store_laws`, `store_worked`: The stores by which a driver publishes its newest transfer (EHCI 1.0, 3.5 and 4.10.2): each leaves the ring, the pipes, what
//!   is to be harvested and all that is told of the driver's queues; the last one brings out all of the transfer's qTDs.
//!
//! The module has no code of its own: each function is a law, and its body is empty.

pub mod qtd_laws;
pub mod qtd_worked;
pub mod store_laws;
pub mod store_worked;

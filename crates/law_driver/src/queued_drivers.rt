//! The queues of a driver whose endpoints are of any kind (EHCI 1.0, 3.5, 3.6, 4.8 and 4.10; USB 2.0, 5.5 to 5.8): what its content tells of them (`queued`) is the
//! content of a driver of bulk and control endpoints, so what holds of the queues of these holds of all.
//!
//! The module has no code of its own: each function is a law over the definitions of `chained_transfers`, and its body is empty.

pub mod commands;
pub mod commands_worked;
pub mod rows;
pub mod worked;

//! An endpoint that is opened (EHCI 1.0, 4.8.1; USB 2.0, 8.6): its command, its lend, and the store that links it.
//!
//! - `accept_laws`: An open that was accepted waits for its lend (EHCI 1.0, 4.8.1): its queue head and its inactive qTD stand where the driver alone may touch
//!   them, and stay there whatever the controller writes.
//! - `store_laws`, `store_worked`: The store of the head's link by which an open is finished (EHCI 1.0, 4.8.1; USB 2.0, 8.6): the walk may meet the new queue
//!   head, a new IN stream begins, and all that is told of the driver's queues stays.
//! - `lend_laws`: The lend of an accepted open (EHCI 1.0, 4.8.1): the ring, the pipes, the report and the driver's queues go on, and the new queue head waits
//!   for the store of the head's link, whatever the controller does.
//!
//! The module has no code of its own: each function is a law, and its body is empty.

pub mod accept_laws;
pub mod lend_laws;
pub mod store_laws;
pub mod store_worked;

//! The bytes of a control transfer's SETUP and of its data OUT in the buffers that the driver took for them (EHCI 1.0, 3.5.4 and 4.10; USB 2.0, 9.3): they stand there
//! once the request was accepted, and stay until the buffers are lent; then its qTDs are as a new request's must be.
//!
//! The module has no code of its own: each function is a law over the definitions of `drv_table`, and its body is empty.

pub mod laws;
pub mod worked;

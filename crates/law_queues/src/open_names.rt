//! The names of the endpoints of a driver of the asynchronous schedule: no two have one address, one number and one way (EHCI 1.0, 3.6.2; USB 2.0, 8.3.2).
//!
//! The module has no code of its own: each function is a law over the definitions of `drv_table`, and its body is empty.

pub mod laws;

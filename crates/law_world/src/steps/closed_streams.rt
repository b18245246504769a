//! The stream of an endpoint that was cancelled is closed (EHCI 1.0, 4.8.2; USB 2.0, 5.8): which names and queue heads are left out then.
//!
//! The module has no code of its own: each function is a law, and its body is empty.

pub mod worked;

//! The small scripts, one with a get, one with a put, one with a cancel and one with control requests, are whole at each moment; the first three meet the
//! premise of each law of the rows of a driver of bulk endpoints at one of them (EHCI 1.0, 4.8.1, 4.8.2 and 4.10; USB 2.0, 8.5.3 and 8.6).
//!
//! - `small_receiver`: Small scripts of bulk endpoints (EHCI 1.0, 4.8.1, 4.8.2 and 4.10; USB 2.0, 8.6), and what their drivers have to do at their moments.
//!
//! The module has no code of its own: each function is a law over the definitions of `streams` and `small_receiver`, and its body is empty.

pub mod cancels;
pub mod small_receiver;

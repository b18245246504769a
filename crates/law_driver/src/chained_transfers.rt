//! The qTDs of an endpoint's transfers as one chain, and the order in which transfers are harvested and given back (EHCI 1.0, 3.5 and 4.10), as facts of a
//! driver's content alone, for drivers whose endpoints are all high-speed bulk ones. An endpoint stays in the ring (`laws`), or may be cancelled, and then it
//! leaves the ring and is given back with its transfers (`leaving`). The same holds where high-speed control endpoints are among them (`asynchronous`).
//!
//! The module has no code of its own: each function is a law over the definitions of `drv_table`, and its body is empty.

pub mod asynchronous;
pub mod laws;
pub mod leaving;
pub mod worked;

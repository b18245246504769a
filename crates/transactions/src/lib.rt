//! One transaction of the host: its ask on the wire, its reply settled, and its price
//! (EHCI 1.0, 4.10 and 4.12; USB 2.0, 5.11.3, 8.5 and 11.17 to 11.20).
//!
//! `run_high`, `run_split_start`, `run_split_complete` and `run_iso`, and `price` before each. The settle table is `toggle_error`'s.
#![tactic(auto)]

mod exchanges;
mod pipe;
mod pricing;
mod runs;
pub mod worked;

pub use exchanges::{exchange, received};
pub use pipe::{IsoResult, Pipe, Result3};
pub use pricing::{price, price_of_bytes};
pub use runs::{run_high, run_iso, run_split_complete, run_split_start};

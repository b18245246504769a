//! How the host settles the reply to a transaction: data toggles, the error counter, pinging and split states
//! (EHCI 1.0, 4.10.3, 4.11, 4.12 and 4.15; USB 2.0, 8.5 and 8.6).
//!
//! `HostSide::settle` is the whole table. `transactions` above it makes the transaction that is settled.
#![tactic(auto)]

mod host;
pub mod laws;
mod rows;
mod settling;
pub mod worked;

pub use host::{HostSide, Outcome};
pub use rows::{AskToken, CompleteRow, Heard, PlainRow, SettleRow, StartRow};

//! The chains of the periodic frame list while a driver links and unlinks structures, one store at a time (EHCI 1.0, 3.1 and 4.6).
//!
//! `PeriodicList` tells the next store: `begin_insert` or `begin_remove`, then `next_store` and `advance` until it is complete. The driver
//! makes the stores. `Leaving` tells when what has left may be given back. Beside it stand `drv_chains`, which has the definitions and
//! laws of chains, and `drv_members`, which keeps the members.
#![tactic(auto)]

mod departures;
mod leaving;
mod list;
mod readings;
mod start;
mod stores;
mod work;

pub use departures::Departure;
pub use leaving::Leaving;
pub use list::PeriodicList;
pub use work::{Progress, Store, Work};

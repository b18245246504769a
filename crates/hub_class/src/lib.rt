//! A high-speed hub with one transaction translator, or one for each port (USB 2.0, chapter 11): `Hub` answers the plain asks
//! of its endpoint 0 (`answer`, `acked`; `request` is what a request does), takes split transactions for the devices below
//! (`transact`), and makes their transactions on the bus below (`microframe`). It stands on `hub_ports`, `dev_control` and
//! `multi_tt`; the bus (`bus_wire`) has the hubs of a script.
#![tactic(auto)]

mod endpoint_zero;
mod hub;
pub mod laws;
pub mod worked;

pub use hub::Hub;

//! The ports of a hub and the requests that it knows (USB 2.0, 11.24): `Ports` has each port's status and change bits,
//! `request_of` reads the setup bytes of a request, `Ports::reply` is what a request reads, `Ports::change` what it
//! changes. Crate `hub_class` is the hub over them, with its endpoint 0 and its translator.
#![tactic(auto)]

mod port;
mod ports;
mod requests;
mod rows;
pub mod worked;

pub use port::Port;
pub use ports::Ports;
pub use requests::{SetupFields, request_of};
pub use rows::{ClassRequest, HubReply, HubRequest, PortChange};

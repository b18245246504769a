//! The root ports of the host controller (EHCI 1.0, 2.3.9): what is plugged in at each, and the bits of its PORTSC.
//!
//! `RootPorts` is seen by contracts as the list of its ports; `RootPorts::event` makes one event, `play` a list of them. What each
//! event makes of a port is a table, specs/Ports.antt.
#![tactic(auto)]

pub mod laws;
mod port;
mod port_event;
mod root_ports;

pub use port::{Plugged, Port};
pub use port_event::PortEvent;
pub use root_ports::{RootPorts, play};

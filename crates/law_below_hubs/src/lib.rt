//! Pipes below hubs, on the bus of a script (USB 2.0, 8.6, 11.14 and 11.18).
//!
//! - `awaited`: what the host of a bulk endpoint waits for, where it hears each answer of its hub.
//! - `buses`: the bus below a hub is one of the same laws as the high-speed bus (`law_ring`, `law_devices`); an endpoint keeps to them on
//!   both, wherever its device is.
//! - `events`: such a pipe at the events of the controller.
//! - `hosts`: the host of a bulk or interrupt endpoint, its device and what the hub has of their key stand to each other as they must.
//! - `requests`: the host of a request of a control endpoint, its device and what the hub has of both directions' keys stand to each other
//!   as they must; between two requests the endpoint rests.
//! - `splitting`: each split transaction of the host is a step of what the named hub has of its key.
//! - `work`: where a microframe begins, the work of all hubs is a few events of the machine of a pipe or of a request
//!   (`law_translated`).
//! - `worked`: start-splits and the microframes after them, computed.
//!
//! The crate has no code of its own: each function is a law, and its body is empty.
#![tactic(auto)]

pub mod awaited;
pub mod buses;
pub mod events;
pub mod hosts;
pub mod requests;
pub mod splitting;
pub mod work;
pub mod worked;

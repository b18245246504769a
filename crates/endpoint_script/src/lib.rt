//! Scripted devices: what each endpoint of a device answers, and what that leaves (USB 2.0, 5.4 to 5.8, 8.5 and 8.6).
//!
//! `Device` is built from its text. The bus calls `Device::answer` where a token and the data sent with it reached the device,
//! and `Device::acked` where the host's ACK of the data just sent did. The rules stand in `specs/` as tables, a file for each kind
//! of endpoint: `Sending` and `Taking` (bulk and interrupt), `Controlling` (control, over the crate `dev_control`) and
//! `Streaming` (isochronous); `specs/Device.antt` puts them together.
#![tactic(auto)]

mod control_endpoint;
mod device;
mod endpoint;
mod iso_sender;
mod item_list;
mod places;
mod receiver;
mod rows;
mod sender;
pub mod worked;

pub use device::{Device, is_scripted};
pub use endpoint::{Endpoint, Role};
pub use rows::TakeRow;

//! What a script says, as values: devices with their endpoints and replies, hubs, fates, holds, and the lines in their order.
//!
//! Plain data, which `script_text` reads, and which the devices, the hubs and the bus are made of. `Script` is what others begin with.
#![tactic(auto)]

mod devices;
mod scripts;

pub use devices::{DeviceText, EpText, HubText, Item};
pub use scripts::{Event, FateText, Line, Script};

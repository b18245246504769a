//! What the driver of the host controller has of its periodic endpoints (EHCI 1.0, 4.6 and 4.7; USB 2.0, 5.6 and 5.7): the plan, the members
//! of the frame list, the notes of isochronous descriptors, and what leaves the list.
//!
//! `PeriodicPart` is the content of specs/Periodic.antt of `drv_periodic_table`, with the room that it has for more. It makes no store into the
//! words that the controller sees: `next_store` tells the store that a command makes next. Below it stand `drv_periodic`, which has the
//! frame list, `bandwidth`, which has the plan, and `drv_iso`, which writes descriptors; above it the driver, whose events call it.
#![tactic(auto)]

mod frames;
mod leaving;
mod linking;
mod notes;
mod part;

pub use frames::{first_of_command, frame_after};
pub use part::{PeriodicPart, is_in_frames};

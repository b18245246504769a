//! The walk of the asynchronous ring: one event a step (EHCI 1.0, 4.8 to 4.12).
//!
//! `step` makes the next event over whatever registers, words and wire it is lent; `AsyncState::begin` begins the part of a microframe.
//! What a visit makes of a queue head stands in `hc_copy`, which the walk of the frame list shares; `hc_core` calls both walks.
#![tactic(auto)]

mod events;
pub mod laws;
mod naks;
mod parts;
mod rows;
mod state;
pub mod worked;
pub mod worked_parts;

pub use events::step;
pub use parts::{HeldParts, RingParts, copy_heard};
pub use rows::WalkRow;
pub use state::{AsyncState, Cursor, ReloadMode, WalkStep};

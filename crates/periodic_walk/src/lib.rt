//! The walk of a frame's chain: one event a step (EHCI 1.0, 4.6, 4.7, 4.10 and 4.12).
//!
//! `step` makes the next event over whatever registers, words and wire it is lent; `PeriodicState::begin` begins the part of a microframe
//! with the link of the frame list's element. What a visit makes of a queue head stands in `hc_interrupt`, of an iTD or a siTD in
//! `hc_iso`; the copy of a queue head, its buffer and its write-back are `hc_copy`'s, as for the walk of the ring.
#![tactic(auto)]

mod chain;
mod events;
mod hand_parts;
mod itd;
mod parts;
mod queue;
mod sitd;
mod state;
pub mod worked;

pub use chain::ChainRow;
pub use events::step;
pub use hand_parts::{HandParts, ItdParts, QueueParts, SitdParts};
pub use itd::ItdRow;
pub use parts::FrameParts;
pub use queue::QueueRow;
pub use sitd::SitdRow;
pub use state::{Hand, HeldQueue, PeriodicState};

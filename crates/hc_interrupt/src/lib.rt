//! What a visit of the frame's chain makes of the queue head of an interrupt endpoint (EHCI 1.0, 4.10 and 4.12.2).
//!
//! `turn_in` tells what there is to do in a microframe. `transact` makes the transaction that `planned` tells, `missed` ends a split
//! transaction of which a microframe was missed, and `goes_on` and `again` tell of a visit with more than one transaction. The copy in
//! hand, its buffer and its write-back are `hc_copy`'s.
#![tactic(auto)]

mod copies;
mod frames;
mod turns;
pub mod worked;

pub use copies::{again, goes_on, missed, transact};
pub use frames::{frame_tag, microframe};
pub use turns::{Turn, planned, turn_in};

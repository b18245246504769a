//! The members of the periodic frame list, kept in order so that a class or a frame is found without a scan (EHCI 1.0, 4.6).
//!
//! `FrameMembers` has the queue heads by period and phase and the descriptors by frame; all its memory is taken by `build`. Contracts see
//! it as the schedule of `drv_chains`. `drv_search` finds the words of a class in it; `drv_periodic` links and unlinks its members.
#![tactic(auto)]

mod checks;
mod descriptors;
mod levels;
mod members;
mod order;
mod places;
mod queues;

pub use checks::may_be_member;
pub use levels::level_of;
pub use members::FrameMembers;

//! What the periodic endpoints of a frame cost at high speed (USB 2.0, 5.11.3; EHCI 1.0, 4.6, 4.7 and 4.10): visits to the queue heads of its chain and
//! to its isochronous descriptors that wait, one each, are visits to different placed endpoints, so they cost together no more than the load of their
//! microframe.
//!
//! The module has no code of its own: each function is a law over the definitions of `drv_table` and of `periodic_walk`, and its body is empty.
//! `frame_budget` says it of queue heads alone, `iso_frames` which descriptors a frame has.

pub mod laws;
pub mod worked;

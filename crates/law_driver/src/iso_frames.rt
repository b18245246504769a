//! The frames of isochronous descriptors (EHCI 1.0, 4.6 and 4.7; USB 2.0, 5.11.3): each descriptor that waits for its harvest stands in a frame in which
//! its endpoint's placement is active, and no two of one endpoint stand in one frame. A descriptor that was harvested, and that no transaction is made
//! of any more, may stand there beside one that waits until it is unlinked.
//!
//! The module has no code of its own: each function is a law over the definitions of `drv_table`, and its body is empty. A world whose driver
//! `HasOwners`, `IsListed` and `IsPlanned` keeps `AreInFrames` by `commands_keep_the_frames` and `events_keep_the_frames`.

pub mod laws;
pub mod worked;

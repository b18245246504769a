//! The visits of both walks in a microframe, along the run of each script (EHCI 1.0, 4.4, 4.6 to 4.10 and 4.12; USB 2.0, 5.11.3): the walk of the frames visits each
//! structure at most once, while members are linked and unlinked; and why a visit has no transaction.
//!
//! - `asked_heads`: Whom either walk asks next: a queue head that has its queue, and none that is being opened.
//! - `world_pipes`: An event of the controller keeps both sides of the pipes at high speed.
//! - `belonging`, `itds`: To whom belongs what the walk of the frames may meet: to endpoints whose placements are in the plan, with their fields in memory.
//! - `descriptors`, `active_descriptors`: Of an isochronous endpoint and a frame at most one descriptor has something active; and such a one stands in its frame alone.
//! - `coverage`: It leaves out none that was linked in its frame as the microframe began, and is linked there still.
//! - `driver_visits`, `splices`: So they do at each event and command of the driver: a store of the frame list puts a member between two others, or takes one out.
//! - `goes_ahead`: In a microframe the walk goes on only to such descriptors with something active as were active when it began.
//! - `in_frames`: Each queue head is visited in the frames of its endpoint's placement.
//! - `reasons`, `worked_reasons`: Why nothing is asked in a microframe in which the bus may not be used, where the walk of the ring goes on after an end by time, and why a
//!   queue head of the frames that is visited has no transaction.
//! - `runs`: What the run of each script that a text spells keeps of all that.
//! - `visits`, `visit_samples`: What was visited in a microframe, as the run tells it: links lead from higher structures to lower ones, at each event of the controller.
//!
//! The module has no code of its own: each function is a law, and its body is empty.

pub mod active_descriptors;
pub mod asked_heads;
pub mod belonging;
pub mod coverage;
pub mod descriptors;
pub mod driver_visits;
pub mod goes_ahead;
pub mod in_frames;
pub mod itds;
pub mod reasons;
pub mod runs;
pub mod splices;
pub mod visit_samples;
pub mod visits;
pub mod worked_reasons;
pub mod world_pipes;

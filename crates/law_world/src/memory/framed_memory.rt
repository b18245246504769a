//! A driver and a controller over one memory, where the controller walks a ring and the frames (EHCI 1.0, 3, 4.6 to 4.10 and 4.12.3): each of its events leaves
//! the driver all that it has to find again, its frame list, and its structures, and goes on over both.
//!
//! `queue_rows`, `ring_links` and `leaves` are laws of endpoints with queues beside both walks (EHCI 1.0, 3.5, 3.6, 4.8 and 4.10), interrupt endpoints among them: their queue
//! heads stand in frames, and their qTDs are lent, stored and given back as those of the ring.
//!
//! The module has no code of its own: each function is a law over the definitions of `specs/`, and its body is empty.

mod command_laws;
mod laws;
pub mod leaves;
mod lend_laws;
mod now_laws;
pub mod queue_rows;
pub mod ring_links;
mod row_laws;

pub use command_laws::numbers_go_on_fitting;
pub use laws::{controller_keeps_framed, new_is_framed};
pub use lend_laws::{
    descriptors_await_their_lend, lend_keeps_now, new_awaits_nothing, placements_have_small_masks,
};
pub use now_laws::{
    controller_keeps_now, link_keeps_now, new_is_framed_now, now_has_frames, registers_keep_now,
    releases_keep_it_framed_now, unlink_keeps_now,
};
pub use row_laws::{frames_keep_now, harvest_keeps_now, owners_tell_leaving};

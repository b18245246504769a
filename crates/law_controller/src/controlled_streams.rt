//! The streams of a ring's endpoints under the controller and its driver (EHCI 1.0, 4.6, 4.8 and 4.10; USB 2.0, 8.6): from the store that opens them to the
//! return of their qTDs.
//!
//! - `control_laws`: The controller over a ring of queue heads (EHCI 1.0, 4.1, 4.6 and 4.8 to 4.10): each of its events begins a microframe or is one of the
//!   ring's walk, and so makes one transaction of one endpoint or asks nothing; it never stops.
//! - `pipe_laws`: The controller over a ring, and the pipes of its IN endpoints (EHCI 1.0, 4.6 and 4.10; USB 2.0, 8.6): each event of the controller takes at
//!   most one packet more of one stream, and both sides of each pipe agree afterwards, whatever the bus loses.
//! - `report_laws`: What is reported of the streams of a ring's IN endpoints (EHCI 1.0, 4.10; USB 2.0, 8.6): each event of the controller leaves it right, a
//!   harvest of the first published qTD that is done adds its bytes, and at any moment what is reported begins the stream.
//! - `opened_laws`, `opened_worked`: Streams that begin (EHCI 1.0, 4.8.1 and 4.10; USB 2.0, 8.6): a device's endpoint that no queue head asks keeps all its
//!   packets and its first toggle, so that its pipe agrees from the moment at which the walk may meet a queue head for it.
//! - `published_laws`, `published_worked`: The streams of a ring's endpoints beside the stores by which a qTD is published (EHCI 1.0, 3.5 and 4.10.2): while it
//!   isn't active nothing is told otherwise; once it is, it is one more to be harvested, of which nothing was moved, and the pipes agree as before.
//! - `return_laws`, `return_worked`: The streams of a ring's endpoints once qTDs and buffers of one queue head were given back (EHCI 1.0, 4.10; USB 2.0, 8.6).
//! - `out_pipe_laws`: The stream of an OUT endpoint of a ring under the controller and its driver (EHCI 1.0, 4.6 and 4.10; USB 2.0, 8.6): each event of the
//!   controller keeps both sides of its pipe agreed, and so do a harvest and a step of a driver that spares it; the bytes known to be taken are those harvested
//!   and those moved of the published qTDs, and they begin what the device took.
//! - `kept_laws`, `kept_worked`: What each event of the controller keeps of each structure in memory (EHCI 1.0, 3.5, 3.6 and 4.10): of a queue head all but its
//!   overlay, of a qTD all but its token, which changes only where it ends, and of a buffer all but its bytes; and there are no new ones.
//!
//! The module has no code of its own: each function is a law, and its body is empty.

pub mod control_laws;
pub mod kept_laws;
pub mod kept_worked;
pub mod opened_laws;
pub mod opened_worked;
mod out_pipe_laws;
mod pipe_laws;
pub mod published_laws;
pub mod published_worked;
mod report_laws;
pub mod return_laws;
pub mod return_worked;

pub use out_pipe_laws::{
    a_harvest_keeps_an_out_stream, a_spared_out_pipe_agrees, an_event_keeps_an_out_stream,
    known_begins_taken,
};
pub use pipe_laws::an_event_keeps_the_pipes;
pub use report_laws::{
    a_harvest_adds_to_the_report, an_event_leaves_the_report_right,
    what_is_reported_begins_the_stream,
};

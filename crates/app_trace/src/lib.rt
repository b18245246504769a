//! What happened in a run of a script, event by event: driver, controller and bus go on as the script orders (EHCI 1.0, 4; USB 2.0, 8), and
//! each event leaves a line, or its packets.
//!
//! `trace` builds the host of a script, carries out its lines and gives the text. The host's wire is `bus_recorder`'s around the bus of the
//! script, so that what is told is what was done. Contracts see the host as `Watched` of specs/Watched.antt; `Traces` says that a text has
//! a line for each event of a run, in order, but for those that a `Choice` leaves out; or the packets of each, as a capture.
#![tactic(auto)]

mod captured;
mod choice;
mod host;
mod reserve;
mod running;
mod shadow;

pub use choice::{Choice, Form};
pub use running::trace;

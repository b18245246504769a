//! What happened, as text: one line for each event of the controller and of the driver, and for each command.
//!
//! `put_entry` appends the line of an `Entry`; specs/Lines.antt has each line as `entry_line`. What the packets of a transaction were, an
//! `Exchange` of `bus_packets` tells, in the order in which they went (USB 2.0, 8.4 and 8.5). Who makes entries stands above it.
#![tactic(auto)]

mod entries;
mod lines;
mod pieces;
pub mod worked;

pub use entries::{Entry, Happening, Work};
pub use lines::put_entry;
pub use pieces::{put, put_endpoint, put_number};

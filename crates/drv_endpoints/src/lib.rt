//! The endpoints that a driver has, by their numbers, and which of them have something to harvest (EHCI 1.0, 4.10); which commands they
//! take, and the events of a command.
//!
//! `Endpoints::next_from` finds the first with something to harvest from a number on, by the bits of a few words and not by going through
//! the endpoints; `push` and `write`, the only calls that change an endpoint, keep those bits. Contracts see `Roster` of
//! specs/Working.antt. Beside it stands `drv_table`, whose definitions say what there is to harvest; `ehci_driver` calls it.
#![tactic(auto)]

mod bits;
mod commands;
mod endpoints;
mod names;
mod refusals;

pub use commands::{event_count, less_room, links, or_first, removes_members, row_of_command};
pub use endpoints::Endpoints;
pub use refusals::{can_get, can_put, is_isochronous, not_again, or_cancel, refusal};

//! The frame list in memory, at each row and command of the driver (EHCI 1.0, 4.6 and 4.7): its words stand for the driver's list.
//!
//! - `list_aside`: Events of the driver that store elsewhere than in the frame list (EHCI 1.0, 4.6, 4.8 and 4.10): what they lend, publish, link into the ring,
//!   unlink from it and give back leaves the words of the frame list, so these stand for it as before.
//! - `list_closed`: The frame list leads to its own members alone (EHCI 1.0, 3.1, 3.3.1 and 4.6): where the words of memory stand for it, also between two
//!   stores of a linking or an unlinking, the link of each element and of each member leads to a member that stands in that frame, or ends the chain.
//! - `list_commands`: The frame list while endpoints are opened and cancelled (EHCI 1.0, 4.6, 4.8 and 4.10): once such a command was accepted the words of
//!   memory stand for it, with the first of the members that a cancel unlinks begun.
//! - `list_driver`: The frame list of a driver (EHCI 1.0, 3.1, 3.3.1 and 4.6): at the opening, after each event of the driver and after each accepted command
//!   the words of memory stand for it, also while members are linked and unlinked.
//! - `list_opens`: The frame list while commands are accepted (EHCI 1.0, 4.6, 4.7, 4.8 and 4.10).
//! - `list_queued`: The isochronous descriptors of a command in memory (EHCI 1.0, 3.3.3, 4.6 and 4.7): before they are lent each is given a link to what stands
//!   first in its frame; no two of them have one frame, so each still leads there when it is linked, and the words of memory stand for the frame list after
//!   each store.
//! - `list_rows`: Rows of the driver and the frame list (EHCI 1.0, 3.6.3 and 4.6): the stores that a stalled endpoint is owed go into its queue head, so the
//!   words of memory stand for the list as before; a harvested isochronous descriptor is unlinked by one store, and they stand for the list without it.
//! - `list_spread`: The members of a driver's frame list stand apart (EHCI 1.0, 3.3, 3.4, 3.6 and 4.6): each begins in a block of its own outside the list, and
//!   no name is the end's.
//! - `list_stands`: The frame list of a driver in memory (EHCI 1.0, 3.1, 3.3.1 and 4.6): the words of a driver that was just built stand for its list, and
//!   stand for it wherever the elements and the links of the members are left, as by every event of the driver that stores no word.
//! - `list_steps`: The stores by which a command links or unlinks members of the frame list (EHCI 1.0, 4.6): after each of them the words of memory stand for
//!   the list, with the one member that is half linked or half unlinked, or with the next one that is begun.
//! - `list_stores`: A store of a driver's frame list, made in memory (EHCI 1.0, 4.6): it is made, since its word lies in the list or in a member's own run, and
//!   the words stand for the list as before.
//!
//! The crate has no code of its own: each function is a law, and its body is empty.
#![tactic(auto)]

pub mod list_aside;
pub mod list_closed;
pub mod list_commands;
pub mod list_driver;
pub mod list_opens;
pub mod list_queued;
pub mod list_rows;
pub mod list_spread;
pub mod list_stands;
pub mod list_steps;
pub mod list_stores;

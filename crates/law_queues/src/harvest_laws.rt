//! Harvests of a driver of bulk and control endpoints (EHCI 1.0, 4.8 and 4.10; USB 2.0, 8.6): what its report tells of each queue that has a
//! stream, and what is held back.
//!
//! - `row_laws`, `row_worked`: A harvest of a get or a put (EHCI 1.0, 4.10): the bytes moved of the qTD that is read are told behind those that were told
//!   before of its endpoint, at once where it ends its transfer, and else held back; the other qTDs are out still.
//! - `held_laws`, `held_worked`: What a driver holds back where a command is accepted, and where a transfer is given back (EHCI 1.0, 4.8 and 4.10): nothing of
//!   a new transfer is harvested, and what was held back of the others stays.
//! - `told_laws`: What a driver's report tells of each queue that has a stream (EHCI 1.0, 4.10; USB 2.0, 8.6), along everything that happens: it grows by what
//!   is harvested, and stays else. Of a control endpoint nothing is said.
//! - `read_laws`: The row of a harvest where a driver has bulk and control endpoints, its transfers take turns and its queues are fed (EHCI 1.0, 4.10): what
//!   was moved of the qTD of a bulk endpoint is told, and what is reported of its stream stays right; that of a control endpoint tells nothing of any stream.
//!
//! The module has no code of its own: each function is a law, and its body is empty.

mod held_laws;
mod held_worked;
mod read_laws;
mod row_laws;
mod row_worked;
mod told_laws;

pub use held_laws::{accepted_commands_keep_what_is_held, return_holds};
pub use held_worked::nothing_to_return;
pub use read_laws::the_row_of_a_harvest_is_told;
pub use row_laws::{
    a_new_driver_holds_nothing, active_is_left, harvest_is_told, what_is_held_stays,
};
pub use row_worked::of_one_transfer;
pub use told_laws::{
    commands_leave_what_is_told, harvested_is_told, new_is_told, rows_leave_what_is_told,
    spared_is_told, the_controller_leaves_what_is_told,
};

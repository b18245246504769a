//! What a driver does at the end of a transfer (EHCI 1.0, 4.10 and 4.15): it reads what the tokens tell, tells the bytes that were moved in a
//! line of the report, and gives the blocks back.
//!
//! `found` tells what one token says, `report` and `report_cancel` append a line with its bytes, `free_qtds_from` and `free_transfers_of`
//! give blocks back. Their values are those of specs/Harvests.antt and specs/Rows.antt of `drv_table`. Beside it stand `drv_queues`,
//! which writes what is read here, and `ehci_driver`, whose events call it.
#![tactic(auto)]

mod buffers;
mod cancels;
mod ends;
mod releases;
mod tokens;

pub use cancels::{is_told_at_release, let_all_go, report_cancel};
pub use ends::{next_waiting, owe_stores, report};
pub use releases::{free_qtds_from, free_runs_at, free_transfers_of};
pub use tokens::{end_cause, found, note_of, tells_stall, token_at, waits_at};

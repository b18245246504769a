//! The operational registers of the host controller (EHCI 1.0, 2.3): what the driver reads and writes, and what the controller sets.
//!
//! `Registers` is seen by contracts as a `RegisterFile` (specs/RegisterFile.antt), a record with a field for each bit or number that is
//! held. What each register has at which bits, how it begins and how it takes a write is a table, specs/Table.antt.
#![tactic(auto)]

mod command;
pub mod laws;
mod register;
mod registers;
mod status;

pub use command::Command;
pub use register::Register;
pub use registers::Registers;
pub use status::Status;

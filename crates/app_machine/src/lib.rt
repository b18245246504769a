//! The top call over the machine alone: what it reads, what it writes and how it ends, with no law of what a run keeps.
//!
//! `ehci_machine` reads with `app_ends` and does what each form of `app_forms` does. The program
//! `ehci_machine` runs it; the top call of `ehci_cli` is this one with the laws above it, so what runs here runs there.
#![tactic(auto)]

mod program;

pub use program::ehci_machine;

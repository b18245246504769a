//! The program's top call: what it reads, what it writes and how it ends.
//!
//! `ehci` carries the theorem of the whole. What it does is the call of `app_machine`, over the machine alone; the laws above the machine
//! make its clauses.
#![tactic(auto)]

mod program;

pub use program::ehci;

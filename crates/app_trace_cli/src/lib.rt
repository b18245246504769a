//! The top call of the trace: what it reads, what it writes and how it ends.
//!
//! `ehci_trace` carries the theorem of the whole. What a line is stands below it in `app_trace_lines`, whose event each is in `app_trace`; what it
//! reads with and how it ends in `app_ends`.
#![tactic(auto)]

mod program;
mod words;

pub use program::ehci_trace;
pub use words::choice_of;

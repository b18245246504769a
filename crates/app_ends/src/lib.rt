//! The ends of a program that reads all of its input and then writes its output: how it ended (`Status`) with the exit status
//! of each end, the input (`read_input`), and the standard ends as source and sink (`StdSource`, `StdSink`).
//!
//! `tell` writes a text, and `ended` gives the process its exit status. What the program does between reading and writing stands
//! above it.
#![tactic(auto)]

mod ending;
mod reading;
mod status;
mod std_ends;
mod telling;

pub use ending::ended;
pub use reading::{Unread, read_input};
pub use status::Status;
pub use std_ends::{StdSink, StdSource};
pub use telling::tell;

//! The top call of the program `ehci_probe`: what it reads, what it writes and how it ends.
//!
//! `ehci_probe` reads an image, lets a controller make a number of events over its words (`app_probe::probe`), and writes one line. What it
//! reads with and how it ends stands below it in `app_ends`.
#![tactic(auto)]

mod line;
mod probing;
pub mod worked;

pub use probing::ehci_probe;

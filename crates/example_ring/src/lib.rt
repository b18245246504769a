//! A controller that runs over a ring of queue heads, by calls of `hc_core` (EHCI 1.0, 4.1, 4.6 and 4.8 to 4.10): each call is told by what it
//! does to the structures in memory, and the ring stays one.
#![tactic(auto)]

mod runs;

pub use runs::{event, run};

//! Visits of the structures of a frame's chain, step by step: what goes over the wire, the events, and the words at the end. The stored
//! run is worked out by hand from the tables of EHCI 1.0 (4.6, 4.7, 4.10 and 4.12) and USB 2.0 (5.9 and 8.5).
//!
//! It calls `periodic_walk`, and nothing calls it.
#![tactic(auto)]

mod cases;
mod chain;
mod run;
mod wire;

use std::io;

fn main(rt: HostRuntime) -> io::Result<()> {
    for case in cases::all() {
        let text = run::describe(rt.alloc(), &case)?;
        println!(rt; "{text}")?;
    }
    Ok(())
}

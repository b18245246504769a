//! Visits of queue heads of the ring, step by step: what goes over the wire, the events, and the words at the end. The stored run is
//! worked out by hand from the tables of EHCI 1.0 (4.8 to 4.12) and USB 2.0 (8.5).
//!
//! It calls `async_walk`, and nothing calls it.
#![tactic(auto)]

mod cases;
mod ring;
mod run;
mod wire;

use std::io;

fn main(rt: HostRuntime) -> io::Result<()> {
    for case in cases::all() {
        let text = run::describe(rt.alloc(), &case)?;
        println!(rt; "{text}")?;
    }
    Ok(())
}

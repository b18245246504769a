//! Microframes of the controller over small rings, on a silent wire. The stored run is worked out by hand from EHCI 1.0 (4.1, 4.4, 4.6 to
//! 4.8).
//!
//! It calls `hc_core`, and nothing calls it.
#![tactic(auto)]

mod cases;
mod ring;
mod run;
mod wire;

use std::io;

fn main(rt: HostRuntime) -> io::Result<()> {
    for case in cases::all() {
        let text = run::describe(rt.alloc(), &case)?;
        println!(rt; "{text}")?;
    }
    Ok(())
}

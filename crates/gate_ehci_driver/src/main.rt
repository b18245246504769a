//! The driver step by step over registers and words, with the controller's part played by the rows: they write tokens and bytes, and
//! answer the doorbell, as a controller would. The stored run is worked out by hand from EHCI 1.0 (3.3, 3.5, 3.6, 4.6 to 4.10).
//!
//! It calls `ehci_driver`, and nothing calls it.
#![tactic(auto)]

mod acts;
mod cases;
mod clears;
mod events;
mod host;
mod image;
mod periodic;
mod pipes;
mod reports;
mod shot;
mod stops;

use std::io;

fn main(rt: HostRuntime) -> io::Result<()> {
    for case in cases::all() {
        let text = acts::describe(rt.alloc(), &case)?;
        println!(rt; "{text}")?;
    }
    for case in stops::all() {
        let text = acts::describe(rt.alloc(), &case)?;
        println!(rt; "{text}")?;
    }
    for case in periodic::all() {
        let text = acts::describe(rt.alloc(), &case)?;
        println!(rt; "{text}")?;
    }
    for case in clears::all() {
        let text = acts::describe(rt.alloc(), &case)?;
        println!(rt; "{text}")?;
    }
    Ok(())
}

//! The program `ehci_probe` over twenty wild images: for each the letters of the first events of a controller (Begin, Fetch, Advance, Transact,
//! WriteBack, Skip, End), and the line that the program writes of a hundred events. The stored run is worked out by hand from EHCI 1.0 (3.1 to
//! 3.6, 4.4, 4.6 to 4.10 and 4.15.2.4).
#![tactic(auto)]

mod cases;
mod images;
mod run;

use cases::Case;
use std::io;

/// Prints the rows of these images.
fn print_rows(rt: &(impl Print + AllocGlobal), images: &[Case]) -> io::Result<()> {
    for case in images {
        let text = run::describe(rt.alloc(), case)?;
        print!(rt; "{text}")?;
    }
    Ok(())
}

fn main(rt: HostRuntime) -> io::Result<()> {
    print_rows(&rt, &cases::rings())?;
    print_rows(&rt, &cases::transfers())?;
    print_rows(&rt, &cases::frames())
}

//! Opens 256 interrupt queue heads of periods from 1 to 8,192 microframes in one frame list, once for each line of the input.
#![tactic(auto)]

mod open;

use std::io;

fn main(rt: HostRuntime) -> io::Result<()> {
    for line in rt.lines(rt.alloc()) {
        let _line = line?;
        let text = open::describe(rt.alloc())?;
        println!(rt; "{text}")?;
    }
    Ok(())
}

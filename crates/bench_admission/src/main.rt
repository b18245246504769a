//! Asks plans for drawn endpoints. Each line of the input is one of these:
//!
//! - `fill SEED WANTS`: plan after plan of 256 is filled.
//! - `compare SEED WANTS ROOM IDS`: a plan and the sums of a list answer the same questions, with removals.
//! - `rounds KIND PLACED ROUNDS`: endpoints come and go beside so many placed ones; KIND is `drawn`, `high`, `long` or `short`.
#![tactic(auto)]

mod compare;
mod draws;
mod fill;
mod line;
mod rounds;
mod spots;
mod sums;

use std::io;

fn main(rt: HostRuntime) -> io::Result<()> {
    for line in rt.lines(rt.alloc()) {
        let text = line::answer(rt.alloc(), line?.as_str())?;
        println!(rt; "{text}")?;
    }
    Ok(())
}

//! Rows of the frame list while members are linked and unlinked (EHCI 1.0, 4.6), over words in memory.
//! A line a step: how many stores it made, or the blocks of the members that the words of a frame lead to.
#![tactic(auto)]

mod play;
mod rows;

use play::Play;
use rows::ROWS;
use std::io;

fn main(rt: HostRuntime) -> io::Result<()> {
    for row in ROWS {
        println!(rt; "{}", row.0)?;
        let Ok(mut play) = Play::build(rt.alloc()) else {
            println!(rt; "  out of memory")?;
            return Ok(());
        };
        for step in row.1 {
            let text = play.step(rt.alloc(), step)?;
            println!(rt; "  {text}")?;
        }
    }
    Ok(())
}

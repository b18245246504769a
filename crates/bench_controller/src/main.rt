//! Steps a controller over a ring or a frame's chain of busy queue heads. Each line of the input has the kind of the queue heads (`in`,
//! `out`, `control` or `interrupt`), their number, the bytes of a packet and a number of events.
//!
//! It calls `hc_core`, and nothing calls it; docs/SPEED.md has what was measured with it.
#![tactic(auto)]

mod line;
mod ring;
mod run;
mod wire;

use std::io;

fn main(rt: HostRuntime) -> io::Result<()> {
    for line in rt.lines(rt.alloc()) {
        let text = run::describe(rt.alloc(), line?.as_str())?;
        println!(rt; "{text}")?;
    }
    Ok(())
}

//! Carries out the script on standard input, and tells how many lines its report has and how many bytes they tell. `bench/world.sh` times it.
//!
//! It calls `script_fits` and `bus_world`, and nothing calls it; docs/SPEED.md has what was measured with it.
#![tactic(auto)]

use bus_world::World;
use script_fits::read;
use std::alloc::Global;
use std::io;

/// The number of lines of the report of a script and of the bytes that they tell; None where the script has a fault or memory is short.
fn carry_out(alloc: Global, text: &[u8]) -> Option<(usize, usize)> {
    let Ok(script) = read(alloc, text) else {
        return None;
    };
    let Ok(mut world) = World::build(alloc, &script) else {
        return None;
    };
    world.run(&script);
    Some((world.driver().reports().len(), world.driver().store().len()))
}

fn main(rt: HostRuntime) -> io::Result<()> {
    let alloc = rt.alloc();
    let mut text = Vec::new(alloc);
    for line in rt.lines(alloc) {
        text.extend_from_slice(line?.as_bytes())?;
        text.push(b'\n')?;
    }
    match carry_out(alloc, text.as_slice()) {
        Some((lines, bytes)) => println!(rt; "{lines} lines, {bytes} bytes")?,
        None => println!(rt; "no report")?,
    }
    Ok(())
}

//! Scripts with their reports: NYET and PING, a lost status stage and a stall between two requests, errors that are counted for each qTD, a
//! bus that may not be used, a lost acknowledgement, a put that finds no blocks, and endpoints of two devices whose lines are mixed; behind a
//! hub a token and then the data that are lost below it, three tokens that are lost there, a port that a request disables, a request to a
//! low-speed device, and a bulk OUT with losses on both buses; and isochronous descriptors there, an IN that comes in two parts, an OUT that
//! is sent in three, a complete-split that is lost, a token that is lost below the hub, and a complete-split that is missed because the bus
//! may not be used: what came before it is told. The stored reports of the first six come from an independent model, those of the others
//! from the lines themselves.
//!
//! It calls `script_fits` and `bus_world`, and nothing calls it.
#![tactic(auto)]

mod scripts;

use bus_world::World;
use script_fits::read;
use scripts::SCRIPTS;
use std::alloc::Global;
use std::io;
use usb_base::MemSink;

/// Writes the report of a script; false where the script has a fault or memory is short.
fn report(alloc: Global, sink: &mut MemSink, text: &[u8]) -> bool {
    let Ok(script) = read(alloc, text) else {
        return false;
    };
    let Ok(mut world) = World::build(alloc, &script) else {
        return false;
    };
    world.run(&script);
    world.print(sink).is_ok()
}

fn main(rt: HostRuntime) -> io::Result<()> {
    let alloc = rt.alloc();
    let Ok(mut sink) = MemSink::build(alloc, 65_536, &[]) else {
        println!(rt; "no memory")?;
        return Ok(());
    };
    for script in SCRIPTS {
        if !report(alloc, &mut sink, script) {
            println!(rt; "no report")?;
        }
    }
    for line in sink.written().split(|b| *b == b'\n') {
        if let Ok(line) = str::from_utf8(line) {
            if !line.is_empty() {
                println!(rt; "{line}")?;
            }
        }
    }
    Ok(())
}

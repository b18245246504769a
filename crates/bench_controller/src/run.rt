ghost use Rattle.std.specs.Prelude.{◌≤◌, IfOk};

use crate::line::{Load, read};
use crate::ring::Ring;
use crate::wire::SteadyWire;
use hc_core::{Controller, HcStep};
use std::alloc::{AllocError, Global};
use usb_base::Memory;

/// What a run came to.
#[derive(Clone, Copy)]
struct Count {
    transactions: u64,
    bytes: u64,
    refused: u64,
}

/// Makes the events of a load, and counts the transactions.
fn run(alloc: Global, load: Load) -> Result<Count, Memory>
    requires { load.size ≤ 512 }
    ensures { IfOk result (λ c. c.transactions ≤ load.events) }
{
    let mut ring = Ring::build(alloc, load)?;
    let mut regs = ring.running();
    let mut wire = SteadyWire::new(load.size);
    let mut controller = Controller::new();
    let mut transactions = 0;
    for _event in 0..load.events {
        match controller.step(&mut regs, &mut ring.mem, &mut wire) {
            HcStep::Transact => transactions += 1,
            HcStep::End => ring.serve(&mut regs),
            _ => {}
        }
    }
    Ok(Count {
        transactions,
        bytes: wire.moved(),
        refused: ring.mem.foreign(),
    })
}

/// What a line gives.
pub(crate) fn describe(alloc: Global, line: &str) -> Result<String, AllocError> {
    let Some(load) = read(line) else {
        return format!(in alloc; "not a kind, queue heads, bytes and events");
    };
    match run(alloc, load) {
        Ok(count) => format!(in alloc;
            "{} events: {} transactions, {} bytes, {} refused",
            load.events, count.transactions, count.bytes, count.refused
        ),
        Err(Memory) => format!(in alloc; "no memory"),
    }
}

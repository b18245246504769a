//! A driver of its own over the controller, and a device of its own: one transfer of a bulk IN endpoint. README.md quotes it.
//!
//! The stored run is worked out by hand from EHCI 1.0 (4.8 and 4.10).
#![tactic(auto)]

mod device;
mod driver;

use device::Greeter;
use driver::{BUFFER, QTD};
use hc_core::{Controller, HcStep};
use op_registers::Registers;
use std::io;
use word_mem::WordMem;

fn main(rt: HostRuntime) -> io::Result<()> {
    let mut mem = WordMem::build(rt.alloc(), 2048).map_err(|_| io::ErrorKind::OutOfMemory)?;
    let Some(ring) = driver::lend(&mut mem) else {
        return Err(io::ErrorKind::OutOfMemory.into());
    };
    let mut regs = Registers::reset();
    let mut wire = Greeter { asked: 0 };
    let mut controller = Controller::new();
    regs.driver_write(0x18, 32 * ring.first());
    regs.driver_write(0x00, 0x0008_0021);
    for _event in 0..100 {
        let step = controller.step(&mut regs, &mut mem, &mut wire);
        println!(rt; "{step:?}")?;
        if step == HcStep::End {
            break;
        }
    }
    let token = driver::word(&mem, &ring, QTD + 8);
    let bytes = driver::word(&mem, &ring, BUFFER);
    println!(rt; "token {token:08x}, bytes {bytes:08x}")
}

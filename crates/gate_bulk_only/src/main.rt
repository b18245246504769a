//! Drawn lists of calls on a disk of the bulk-only transport (USB Mass Storage Class, Bulk-Only Transport 1.0), against a model written
//! apart: it reads no command block, but knows which command it drew, and of each block only who wrote it last.
//! A line a list: how many commands were obeyed, how many of them failed, how many pieces were refused, how many packets were sent, and
//! how many answers were others than the model's.
#![tactic(auto)]

mod batch;
mod command;
mod counts;
mod draws;
mod host;
mod model;

use counts::Counts;
use draws::Draws;
use host::Host;
use std::io;

/// The blocks of the disk, and the bytes of replies that may wait, a row a list.
const DISKS: [(u32, u32); 8] = [
    (0, 600),
    (1, 13),
    (1, 1100),
    (8, 600),
    (8, 2100),
    (24, 4200),
    (40, 21000),
    (64, 50000),
];

fn main(rt: HostRuntime) -> io::Result<()> {
    for (list, (blocks, room)) in DISKS.iter().enumerate() {
        let mut draws = Draws::new(list as u32);
        let mut counts = Counts::default();
        let Ok(mut host) = Host::build(rt.alloc(), *blocks, *room) else {
            println!(rt; "out of memory")?;
            return Ok(());
        };
        for _step in 0..400u32 {
            host.step(&mut draws, &mut counts)?;
        }
        println!(rt;
            "{blocks} blocks, room {room}: {} obeyed, {} failed, {} refused, {} sent, {} differ",
            counts.obeyed, counts.failed, counts.refused, counts.sent, counts.differ
        )?;
    }
    Ok(())
}

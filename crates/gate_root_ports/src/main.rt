//! Drawn lists of events of the root ports (EHCI 1.0, 2.3.9), against a model written apart: it keeps no connection bit and no enable
//! bit, but says what they are by what is plugged in and by what made the port ready.
//! A line a number of ports: how many events were drawn, how many raised Port Change Detect, how often a port was ready behind an
//! event, and how many readings were others than the model's.
#![tactic(auto)]

mod compare;
mod draws;
mod model;
mod model_port;

use compare::{Counts, compare_list};
use draws::Draws;
use std::io;

/// The lists that are drawn for each number of ports.
const LISTS: u32 = 40;

fn main(rt: HostRuntime) -> io::Result<()> {
    let mut draws = Draws::new(58);
    for count in 1..=15u8 {
        let mut counts = Counts::default();
        for _list in 0..LISTS {
            compare_list(rt.alloc(), count, &mut draws, &mut counts)?;
        }
        println!(rt;
            "{count} ports: {} events, {} raised, {} ready, {} differ",
            counts.events, counts.raised, counts.ready, counts.differ
        )?;
    }
    Ok(())
}

//! Rows of calls on a translator's two buffers (USB 2.0, 11.17), over a bus below that gives what the row says.
//! A line a row: its name, what each call answered, and how often the bus below was asked.
#![tactic(auto)]

mod bus;
mod steps;

use bus::Gives;
use std::io;
use steps::{Step, play};
use usb_base::Pid;

const ROWS: &[(&str, &[Step])] = &[
    (
        "old bytes come back",
        &[
            Step::Start(1),
            Step::Work(Gives::Data(1, 2)),
            Step::Start(1),
            Step::Complete(1),
        ],
    ),
    (
        "a clear drops them",
        &[
            Step::Start(1),
            Step::Work(Gives::Data(1, 2)),
            Step::Clear(1),
            Step::Start(1),
            Step::Complete(1),
            Step::Work(Gives::Data(3, 4)),
            Step::Complete(1),
        ],
    ),
    (
        "a repeated start is run once",
        &[
            Step::Start(1),
            Step::Start(1),
            Step::Work(Gives::Data(1, 2)),
            Step::Work(Gives::Data(3, 4)),
            Step::Complete(1),
            Step::Complete(1),
        ],
    ),
    (
        "the third silence is a stall",
        &[
            Step::Start(1),
            Step::Work(Gives::Silence),
            Step::Work(Gives::Silence),
            Step::Complete(1),
            Step::Work(Gives::Silence),
            Step::Complete(1),
            Step::Work(Gives::Silence),
        ],
    ),
    (
        "two keys fill the buffers",
        &[
            Step::Start(1),
            Step::Start(2),
            Step::Start(4),
            Step::Complete(4),
        ],
    ),
    (
        "an old buffer is given away",
        &[
            Step::Start(1),
            Step::Work(Gives::Hand(Pid::Nak)),
            Step::Complete(1),
            Step::Start(2),
            Step::Start(4),
            Step::Complete(1),
            Step::Complete(2),
        ],
    ),
    (
        "a reset frees both",
        &[
            Step::Start(1),
            Step::Start(2),
            Step::Reset,
            Step::Complete(2),
            Step::Start(4),
        ],
    ),
];

fn main(rt: HostRuntime) -> io::Result<()> {
    for (name, steps) in ROWS {
        let answers = play(rt.alloc(), steps)?;
        println!(rt; "{name}: {answers}")?;
    }
    Ok(())
}

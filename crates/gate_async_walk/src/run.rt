use crate::cases::Case;
use crate::ring::{QTD, QUEUE, memory, running, word};
use crate::wire::{Answer, Asked, ListedWire};
use async_walk::{AsyncState, WalkStep, step};
use std::alloc::{AllocError, Global};
use usb_base::{Pid, Ps, Split};

/// The most events of a row.
const EVENTS: u32 = 100;

fn letter(step: WalkStep) -> &'static str {
    match step {
        WalkStep::Fetch => "F",
        WalkStep::Advance => "A",
        WalkStep::Transact => "T",
        WalkStep::WriteBack => "W ",
        WalkStep::Skip => "S ",
        WalkStep::Ended => "end",
        WalkStep::Fault => "fault",
    }
}

fn name(pid: Pid) -> &'static str {
    match pid {
        Pid::Out => "out",
        Pid::In => "in",
        Pid::Setup => "setup",
        Pid::Ping => "ping",
        Pid::Data0 => "data0",
        Pid::Data1 => "data1",
        _ => "other",
    }
}

fn half(split: Split) -> &'static str {
    match split {
        Split::Plain => "",
        Split::Start { .. } => "start ",
        Split::Complete { .. } => "complete ",
    }
}

fn heard(answer: Answer) -> &'static str {
    match answer {
        Answer::Ack => "ack",
        Answer::Nak => "nak",
        Answer::Nyet => "nyet",
        Answer::Stall => "stall",
        Answer::Silent => "silent",
        Answer::Data(_) => "data",
    }
}

/// A line of what was asked and heard.
fn line(alloc: Global, asked: &Asked) -> Result<String, AllocError> {
    format!(in alloc;
        "  {}{} {} {} from {}: {}",
        half(asked.split),
        name(asked.pid),
        name(asked.toggle),
        asked.bytes,
        asked.first,
        heard(asked.answer)
    )
}

/// What a row gives in one microframe: its events, one letter each, its asks, and the words at the end.
pub(crate) fn describe(alloc: Global, case: &Case) -> Result<String, AllocError> {
    let Ok(mut mem) = memory(alloc, case) else {
        return format!(in alloc; "no memory");
    };
    let mut regs = running();
    let mut wire = ListedWire {
        answers: case.answers,
        asked: Vec::new(alloc),
    };
    let mut walk = AsyncState::new();
    walk.begin(Ps(125_000_000));
    let mut text = format!(in alloc; "{}\n  ", case.name)?;
    for _event in 0..EVENTS {
        let kind = step(&mut walk, &mut regs, &mut mem, &mut wire);
        text.push_str(letter(kind))?;
        if kind == WalkStep::Ended || kind == WalkStep::Fault {
            break;
        }
    }
    text.push_str("\n")?;
    for asked in &wire.asked {
        text.push_str(line(alloc, asked)?.as_str())?;
        text.push_str("\n")?;
    }
    let end = format!(in alloc;
        "  overlay {:08x} offset {:08x} naks {:x} qtd {:08x} status {:08x} foreign {} buffer {:08x}",
        word(&mem, QUEUE + 24),
        word(&mem, QUEUE + 28),
        word(&mem, QUEUE + 20),
        word(&mem, QTD + 8),
        regs.driver_read(4).unwrap_or(0),
        mem.foreign(),
        word(&mem, 0x2000)
    )?;
    text.push_str(end.as_str())?;
    Ok(text)
}

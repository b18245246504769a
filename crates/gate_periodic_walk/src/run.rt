use crate::cases::Case;
use crate::chain::{first, memory, running, word};
use crate::wire::{Answer, Asked, ListedWire, part_name};
use async_walk::WalkStep;
use op_registers::Registers;
use periodic_walk::{PeriodicState, step};
use std::alloc::{AllocError, Global};
use usb_base::{Pid, Ps, Split};
use word_mem::WordMem;

/// The most events of a microframe.
const EVENTS: u32 = 100;

fn letter(step: WalkStep) -> &'static str {
    match step {
        WalkStep::Fetch => "F",
        WalkStep::Advance => "A",
        WalkStep::Transact => "T",
        WalkStep::WriteBack => "W",
        WalkStep::Skip => "S",
        WalkStep::Ended => " end",
        WalkStep::Fault => " fault",
    }
}

fn name(pid: Pid) -> &'static str {
    match pid {
        Pid::Out => "out",
        Pid::In => "in",
        Pid::Data0 => "data0",
        Pid::Data1 => "data1",
        Pid::Data2 => "data2",
        Pid::Mdata => "mdata",
        _ => "other",
    }
}

fn half(split: Split) -> &'static str {
    match split {
        Split::Plain => "",
        Split::Start { .. } => "start ",
        Split::Complete { .. } => "complete ",
    }
}

fn part(split: Split) -> &'static str {
    match split {
        Split::Start { part, .. } => part_name(part),
        _ => "",
    }
}

fn heard(answer: Answer) -> &'static str {
    match answer {
        Answer::Ack => "ack",
        Answer::Nyet => "nyet",
        Answer::Err => "err",
        Answer::Silent => "silent",
        Answer::Data(pid, _) => name(pid),
    }
}

/// A line of what was asked and heard.
fn line(alloc: Global, asked: &Asked) -> Result<String, AllocError> {
    format!(in alloc;
        "  {}{}{} {} {} from {}: {}",
        half(asked.split),
        part(asked.split),
        name(asked.pid),
        name(asked.toggle),
        asked.bytes,
        asked.first,
        heard(asked.answer)
    )
}

/// The events of one microframe, one letter each.
fn microframe(
    alloc: Global,
    case: &Case,
    index: u16,
    walk: &mut PeriodicState,
    regs: &mut Registers,
    mem: &mut WordMem,
    wire: &mut ListedWire,
) -> Result<String, AllocError> {
    walk.begin(first(case.kind), index, Ps(125_000_000));
    let mut text = format!(in alloc; "  {}: ", index)?;
    for _event in 0..EVENTS {
        let kind = step(walk, regs, mem, wire);
        text.push_str(letter(kind))?;
        if kind == WalkStep::Ended || kind == WalkStep::Fault {
            break;
        }
    }
    Ok(text)
}

/// What a row gives: the events of each microframe, its asks, and some words at the end.
pub(crate) fn describe(alloc: Global, case: &Case) -> Result<String, AllocError> {
    let Ok(mut mem) = memory(alloc, case) else {
        return format!(in alloc; "no memory");
    };
    let mut regs = running();
    let mut wire = ListedWire {
        answers: case.answers,
        asked: Vec::new(alloc),
    };
    let mut walk = PeriodicState::new();
    let mut text = format!(in alloc; "{}\n", case.name)?;
    for index in case.microframes {
        let events = microframe(
            alloc, case, *index, &mut walk, &mut regs, &mut mem, &mut wire,
        )?;
        text.push_str(events.as_str())?;
        text.push_str("\n")?;
    }
    for asked in &wire.asked {
        text.push_str(line(alloc, asked)?.as_str())?;
        text.push_str("\n")?;
    }
    for at in case.shown {
        let at = *at;
        let found = word(&mem, at);
        let shown = format!(in alloc; "  {:04x} {:08x}\n", at, found)?;
        text.push_str(shown.as_str())?;
    }
    let end = format!(in alloc;
        "  status {:08x} foreign {}",
        regs.driver_read(4).unwrap_or(0),
        mem.foreign()
    )?;
    text.push_str(end.as_str())?;
    Ok(text)
}

use crate::host::Host;
use crate::image::changes;
use crate::reports::{put, since};
use crate::shot::{Blocks, Shot};
use ehci_driver::DriverStep;
use std::alloc::{AllocError, Global};

fn kind(step: DriverStep) -> &'static str {
    match step {
        DriverStep::Lend => "lend",
        DriverStep::Store => "store",
        DriverStep::Register => "register",
        DriverStep::Harvest => "harvest",
        DriverStep::Release => "release",
        DriverStep::Reset(_) => "reset",
        DriverStep::ResetDisk(_) => "reset-disk",
        DriverStep::Rest => "rest",
    }
}

/// How many blocks are Free, Kept and Lent.
pub(crate) fn blocks(alloc: Global, blocks: Blocks) -> Result<String, AllocError> {
    format!(in alloc; " {}/{}/{}", blocks.free, blocks.kept, blocks.lent)
}

/// The blocks, where they differ.
fn blocks_since(alloc: Global, before: &Shot, now: &Shot) -> Result<String, AllocError> {
    if before.blocks() != now.blocks() {
        return blocks(alloc, now.blocks());
    }
    Ok(String::new(alloc))
}

/// A register, where it differs.
fn register(alloc: Global, name: &str, before: u32, now: u32) -> Result<String, AllocError> {
    if before != now {
        return format!(in alloc; " {name} {now:x}");
    }
    Ok(String::new(alloc))
}

/// Blocks, words and registers that differ.
pub(crate) fn differences(alloc: Global, before: &Shot, now: &Shot) -> Result<String, AllocError> {
    let mut text = blocks_since(alloc, before, now)?;
    put(&mut text, changes(alloc, before, now))?;
    put(
        &mut text,
        register(alloc, "usbcmd", before.command, now.command),
    )?;
    put(
        &mut text,
        register(alloc, "usbsts", before.status, now.status),
    )?;
    Ok(text)
}

/// An event of the driver that was made: its kind, what differs after it, and the new lines of the report.
fn event(
    alloc: Global,
    host: &Host,
    step: DriverStep,
    before: &Shot,
    now: &Shot,
) -> Result<String, AllocError> {
    let mut text = format!(in alloc; "{}", kind(step))?;
    put(&mut text, differences(alloc, before, now))?;
    put(&mut text, since(alloc, host, before.lines))?;
    Ok(text)
}

/// The next event of the driver.
fn next(alloc: Global, host: &mut Host) -> Result<String, AllocError> {
    let before = Shot::of(alloc, host)?;
    let step = host.step();
    let now = Shot::of(alloc, host)?;
    event(alloc, host, step, &before, &now)
}

/// So many events of the driver: the last one.
fn last_of(host: &mut Host, count: u32) -> DriverStep {
    let mut last = DriverStep::Rest;
    for _event in 0..count {
        last = host.step();
    }
    last
}

/// What differs after several events: the blocks, and the new lines of the report.
fn changed(alloc: Global, host: &Host, before: &Shot) -> Result<String, AllocError> {
    let now = Shot::of(alloc, host)?;
    let mut text = blocks_since(alloc, before, &now)?;
    put(&mut text, since(alloc, host, before.lines))?;
    Ok(text)
}

/// So many events of the driver: the last one, and what differs after all of them.
pub(crate) fn run(alloc: Global, host: &mut Host, count: u32) -> Result<String, AllocError> {
    let before = Shot::of(alloc, host)?;
    let last = last_of(host, count);
    let mut text = format!(in alloc; "{count} events, the last {}", kind(last))?;
    put(&mut text, changed(alloc, host, &before))?;
    Ok(text)
}

/// Lines of events: their text, and behind it the last one, which was made so many times in a row.
#[derive(Drop)]
struct Lines {
    text: String,
    last: String,
    times: u32,
}

impl Lines {
    /// Adds the last one to the text.
    fn end(&mut self, alloc: Global) -> Result<(), AllocError> {
        if self.times == 0 {
            return Ok(());
        }
        self.text.push_str("\n    ")?;
        self.text.push_str(self.last.as_str())?;
        if self.times > 1 {
            let times = self.times;
            put(&mut self.text, format!(in alloc; " *{times}"))?;
        }
        Ok(())
    }

    /// Notes an event.
    fn note(&mut self, alloc: Global, made: String) -> Result<(), AllocError> {
        if made.as_str() == self.last.as_str() {
            self.times = self.times.saturating_add(1);
            return Ok(());
        }
        self.end(alloc)?;
        self.last = made;
        self.times = 1;
        Ok(())
    }
}

/// So many events of the driver, a line each; equal ones in a row on one line.
pub(crate) fn events(alloc: Global, host: &mut Host, count: u32) -> Result<String, AllocError> {
    let mut lines = Lines {
        text: format!(in alloc; "events")?,
        last: String::new(alloc),
        times: 0,
    };
    for _event in 0..count {
        lines.note(alloc, next(alloc, host)?)?;
    }
    lines.end(alloc)?;
    Ok(lines.text)
}

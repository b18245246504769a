use crate::running::{moving, run};
use app_ends::Status;
use std::alloc::{AllocError, Global};

/// All bytes that there are in one call.
const ALL: usize = 1 << 20;

/// The lines of which a script has only so many.
#[derive(Clone, Copy, Debug, PartialEq, Eq)]
pub enum Section {
    Hubs,
    Devices,
    Endpoints,
    /// Replies, of which the bytes are counted.
    Replies,
    Fates,
    Holds,
    /// Commands, each a transfer from an endpoint that is never opened.
    Gets,
    /// Steps of the driver, 1,000,000 a line.
    Steps,
    Microframes,
}

/// How many lines of a section the largest script has.
fn most(section: Section) -> u32 {
    match section {
        Section::Hubs => 8,
        Section::Devices => 118,
        Section::Endpoints => 256,
        Section::Replies => 64,
        Section::Fates => 4096,
        Section::Holds => 256,
        Section::Gets => 4096,
        Section::Steps => 4,
        Section::Microframes => 1,
    }
}

/// Line k of a section, counted from 0.
fn line_of(alloc: Global, section: Section, k: u32) -> Result<String, AllocError> {
    let place = k % 256;
    let device = place / 15 + 1;
    let number = place % 15 + 1;
    let next = k.saturating_add(1);
    match section {
        Section::Hubs => format!(in alloc; "hub {} 15\n", 127u32.saturating_sub(k)),
        Section::Devices => format!(in alloc; "dev {next} high\n"),
        Section::Endpoints if k < 256 => { format!(in alloc; "ep {device} {number} in bulk 512\n") }
        Section::Endpoints => format!(in alloc; "ep 1 1 out bulk 512\n"),
        Section::Replies if k < 64 => format!(in alloc; "reply 1 1 in fill 65536 0\n"),
        Section::Replies => format!(in alloc; "reply 1 1 in fill 1 0\n"),
        Section::Fates => format!(in alloc; "fate {device} {number} in high {} lost\n", k / 256),
        Section::Holds => format!(in alloc; "hold {next} {next}\n"),
        Section::Gets => format!(in alloc; "get {device} {number} in 1024\n"),
        Section::Steps if k < 4 => format!(in alloc; "order d 1000000\n"),
        Section::Steps => format!(in alloc; "order d 1\n"),
        Section::Microframes if k < 1 => format!(in alloc; "order m 16384\n"),
        Section::Microframes => format!(in alloc; "order m 1\n"),
    }
}

/// The script at all its limits, with one line more of a section.
fn script(alloc: Global, more: Option<Section>) -> Result<Vec<u8>, AllocError> {
    let mut text = Vec::from_slice(alloc, b"ehci 1\nmem 262144\n")?;
    for section in [
        Section::Hubs,
        Section::Devices,
        Section::Endpoints,
        Section::Replies,
        Section::Fates,
        Section::Holds,
        Section::Gets,
        Section::Steps,
        Section::Microframes,
    ] {
        let further = (more == Some(section)) as u32;
        for k in 0..most(section).saturating_add(further) {
            text.extend_from_slice(line_of(alloc, section, k)?.as_bytes())?;
        }
    }
    Ok(text)
}

/// What `check` says of the script at all its limits, with one line more of a section.
pub fn check(alloc: Global, more: Option<Section>) -> Result<String, AllocError> {
    let ending = run(alloc, "check", &script(alloc, more)?, moving(ALL))?;
    match str::from_utf8(&ending.written) {
        Ok(line) => String::from_str(alloc, line),
        Err(_) => format!(in alloc; "no text\n"),
    }
}

/// Whether the script at all its limits runs: each of its commands is refused in a line, since no endpoint is open.
pub fn is_run(alloc: Global) -> Result<&'static str, AllocError> {
    let mut report = Vec::new(alloc);
    for line in 4801..8897u32 {
        let refused = format!(in alloc; "line {line}: refused no-endpoint\n")?;
        report.extend_from_slice(refused.as_bytes())?;
    }
    let ending = run(alloc, "run", &script(alloc, None)?, moving(ALL))?;
    if ending.status == Status::Ok && ending.written.as_slice() == report.as_slice() {
        Ok("as it must be")
    } else {
        Ok("wrong")
    }
}

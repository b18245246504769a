ghost use Rattle.std.specs.Prelude.{◌≡◌, ◌≤◌, ◌%◌};

use crate::cases::{Act, Case};
use crate::events::{blocks, differences, events, run};
use crate::host::Host;
use crate::image::words_from;
use crate::pipes::{Pipe, desc_of, name_of};
use crate::reports::{after, cause, name, put, refusal, since};
use crate::shot::Shot;
use ehci_driver::Reserve;
use std::alloc::{AllocError, Global};
use usb_base::{Cmd, EpName, ListOf, OfferError, Rules};

/// The room that the rows make.
const ROOM: Reserve = Reserve {
    endpoints: 4,
    transfers: 8,
    reports: 16,
    report_bytes: 65_536,
    rules: Rules {
        frames: 1024,
        stuffed: false,
        park: 0,
    },
};

/// The bytes of a put: k at byte 4,096 (k - 1), 255 at the last, and else 0.
fn sent(alloc: Global, len: u32) -> Result<ListOf<u8>, AllocError> {
    let mut bytes = Vec::with_capacity(alloc, len as usize)?;
    for place in 0..len {
        let page = place / 4096;
        let byte = if place + 1 == len {
            255
        } else if place % 4096 == 0 && page < 255 {
            page as u8 + 1
        } else {
            0
        };
        bytes.push(byte)?;
    }
    Ok(ListOf::of(bytes))
}

/// Offers a command: the answer, and whether nothing differs.
fn tried(
    alloc: Global,
    host: &mut Host,
    cmd: &Cmd,
) -> Result<(Option<Result<(), OfferError>>, bool), AllocError> {
    let before = Shot::of(alloc, host)?;
    let room = host.room();
    let answer = host.offer(cmd);
    let now = Shot::of(alloc, host)?;
    let same = before.is_same(&now) && room == host.room();
    Ok((answer, same))
}

/// How many blocks are Free, Kept and Lent now.
fn counted(alloc: Global, host: &Host) -> Result<String, AllocError> {
    let now = Shot::of(alloc, host)?;
    blocks(alloc, now.blocks())
}

/// A refusal, and whether nothing differs after it.
fn refused(alloc: Global, why: OfferError, same: bool) -> Result<String, AllocError> {
    let what = if same { "nothing" } else { "something" };
    let text = refusal(alloc, why)?;
    format!(in alloc; "refused {}, {what} differs", text.as_str())
}

/// Offers a command, and tells the answer and what differs: of a refusal, whether anything does.
fn offer(alloc: Global, host: &mut Host, cmd: &Cmd) -> Result<String, AllocError> {
    let (answer, same) = tried(alloc, host, cmd)?;
    match answer {
        None => format!(in alloc; "not offered"),
        Some(Ok(())) => after(alloc, "accepted", counted(alloc, host)),
        Some(Err(why)) => refused(alloc, why, same),
    }
}

/// A command that is offered, with its name and that of the endpoint.
fn offered(
    alloc: Global,
    host: &mut Host,
    verb: &str,
    named: &EpName,
    cmd: &Cmd,
) -> Result<String, AllocError> {
    let mut text = after(alloc, verb, spaced(alloc, named))?;
    put(&mut text, offer(alloc, host, cmd))?;
    Ok(text)
}

/// The name of an endpoint, as it stands in a line.
fn spaced(alloc: Global, named: &EpName) -> Result<String, AllocError> {
    let to = name(alloc, named)?;
    format!(in alloc; " {}: ", to.as_str())
}

/// The controller writes a word, or the same word at several places: how often it may.
fn write(
    alloc: Global,
    host: &mut Host,
    at: u32,
    every: u32,
    count: u32,
    word: u32,
) -> Result<String, AllocError> {
    let mut made = 0u32;
    for place in 0..count {
        if host.write(at.saturating_add(place.saturating_mul(every)), word) {
            made = made.saturating_add(1);
        }
    }
    format!(in alloc; "controller {at:x}={word:x}, {made} written")
}

/// The controller answers the doorbell.
fn answer(alloc: Global, host: &mut Host) -> Result<String, AllocError> {
    let before = Shot::of(alloc, host)?;
    host.answer();
    let now = Shot::of(alloc, host)?;
    after(alloc, "controller", differences(alloc, &before, &now))
}

/// So many microframes begin: what FRINDEX is then.
fn begin(alloc: Global, host: &mut Host, count: u32) -> Result<String, AllocError> {
    for _microframe in 0..count {
        host.begin();
    }
    format!(in alloc; "controller frindex {:x}", host.regs().frame_index())
}

/// So many words from a byte address on, those that aren't 0.
fn image(alloc: Global, host: &Host, at: u32, count: u32) -> Result<String, AllocError> {
    let shot = Shot::of(alloc, host)?;
    after(alloc, "image", words_from(alloc, &shot, at, count))
}

/// All registers, by their offsets.
fn registers(alloc: Global, host: &Host) -> Result<String, AllocError> {
    let mut text = format!(in alloc; "registers")?;
    for offset in [0x00, 0x04, 0x08, 0x0c, 0x10, 0x14, 0x18, 0x40, 0x44] {
        let word = host.regs().driver_read(offset).unwrap_or(0);
        put(&mut text, format!(in alloc; " {offset:x}={word:x}"))?;
    }
    Ok(text)
}

/// What of the room isn't used.
fn room(alloc: Global, host: &Host) -> Result<String, AllocError> {
    let room = host.room();
    format!(in alloc;
        "room {} {} {} {}",
        room.endpoints, room.transfers, room.reports, room.report_bytes
    )
}

/// What the driver tells of an endpoint.
fn told(alloc: Global, host: &Host, named: &EpName) -> Result<String, AllocError> {
    let ended = match host.driver().ended(named) {
        Some(first) => cause(first),
        None => "none",
    };
    let text = name(alloc, named)?;
    format!(in alloc;
        "{} opened {} pending {} ended {ended}",
        text.as_str(),
        host.driver().opened(named),
        host.driver().pending(named)
    )
}

/// A line that tells a refusal.
fn refuse(
    alloc: Global,
    host: &mut Host,
    named: EpName,
    why: OfferError,
) -> Result<String, AllocError> {
    let lines = host.driver().reports().len();
    host.refuse(named, why);
    after(alloc, "report", since(alloc, host, lines))
}

/// The command that opens an endpoint.
fn opening(pipe: Pipe) -> Option<Cmd> {
    match desc_of(pipe) {
        Some(desc) => Some(Cmd::OpenEp(desc)),
        None => None,
    }
}

/// The command that an act offers to this endpoint, if it offers one.
fn command_of(
    alloc: Global,
    act: &Act,
    pipe: Pipe,
    name: EpName,
) -> Result<Option<Cmd>, AllocError> {
    match *act {
        Act::Open(_) => Ok(opening(pipe)),
        Act::Get(_, len, by) => Ok(Some(Cmd::Get { name, len, by })),
        Act::Put(_, len, by) => {
            let bytes = sent(alloc, len)?;
            Ok(Some(Cmd::Put { name, bytes, by }))
        }
        Act::Request(_, setup, len) => {
            let bytes = sent(alloc, len)?;
            Ok(Some(Cmd::Control { name, setup, bytes }))
        }
        Act::Iso(_, count, len, seed) => Ok(Some(Cmd::Iso {
            name,
            count,
            len,
            seed,
        })),
        Act::Cancel(_) => Ok(Some(Cmd::Cancel(name))),
        Act::Clear(_) => Ok(Some(Cmd::Clear(name))),
        _ => Ok(None),
    }
}

/// What an act that offers a command is called.
fn verb(act: &Act) -> &'static str {
    match act {
        Act::Open(_) => "open",
        Act::Get(_, _, _) => "get",
        Act::Put(_, _, _) => "put",
        Act::Request(_, _, _) => "control",
        Act::Iso(_, _, _, _) => "iso",
        Act::Clear(_) => "clear",
        _ => "cancel",
    }
}

/// An act with this endpoint.
fn command(alloc: Global, host: &mut Host, pipe: Pipe, act: &Act) -> Result<String, AllocError> {
    let Some(named) = name_of(pipe) else {
        return format!(in alloc; "no such endpoint");
    };
    if let Some(cmd) = command_of(alloc, act, pipe, named)? {
        return offered(alloc, host, verb(act), &named, &cmd);
    }
    match *act {
        Act::Refuse(_, why) => refuse(alloc, host, named, why),
        _ => told(alloc, host, &named),
    }
}

/// The endpoint of an act that has one.
fn pipe_of(act: &Act) -> Option<Pipe> {
    match *act {
        Act::Open(pipe)
        | Act::Get(pipe, _, _)
        | Act::Put(pipe, _, _)
        | Act::Request(pipe, _, _)
        | Act::Iso(pipe, _, _, _)
        | Act::Cancel(pipe)
        | Act::Clear(pipe)
        | Act::Refuse(pipe, _)
        | Act::Tell(pipe) => Some(pipe),
        _ => None,
    }
}

/// The controller's part, and events of the driver.
fn part(alloc: Global, host: &mut Host, act: &Act) -> Result<String, AllocError> {
    match *act {
        Act::Events(count) => events(alloc, host, count),
        Act::Run(count) => run(alloc, host, count),
        Act::Microframes(count) => begin(alloc, host, count),
        Act::Write(at, word) => write(alloc, host, at, 0, 1, word),
        Act::Writes {
            at,
            every,
            count,
            word,
        } => write(alloc, host, at, every, count, word),
        Act::Answer => answer(alloc, host),
        _ => shown(alloc, host, act),
    }
}

/// What is told of words, registers and room.
fn shown(alloc: Global, host: &Host, act: &Act) -> Result<String, AllocError> {
    match *act {
        Act::Image(at) => image(alloc, host, at, u32::MAX),
        Act::Words(at, count) => image(alloc, host, at, count),
        Act::Registers => registers(alloc, host),
        _ => room(alloc, host),
    }
}

/// What an act gives.
fn act(alloc: Global, host: &mut Host, act: &Act) -> Result<String, AllocError> {
    match pipe_of(act) {
        Some(pipe) => command(alloc, host, pipe, act),
        None => part(alloc, host, act),
    }
}

/// The words of memory that a row asks for, or 2,048 where it asks for none that a host has.
fn words_of(case: &Case) -> u32
    ensures at_least { 2048 ≤ result }
    ensures at_most { result ≤ 262144 }
    ensures whole_pages { result % 1024 ≡ 0 }
{
    if case.words < 2048 || case.words > 262_144 || case.words % 1024 != 0 {
        return 2048;
    }
    case.words
}

/// The name of a row, with the blocks at the opening.
fn title(alloc: Global, host: &Host, case: &Case) -> Result<String, AllocError> {
    let counted = counted(alloc, host)?;
    format!(in alloc; "{}:{}", case.name, counted.as_str())
}

/// Appends a line: what an act gives.
fn append(alloc: Global, text: &mut String, host: &mut Host, one: &Act) -> Result<(), AllocError> {
    text.push_str("\n  ")?;
    put(text, act(alloc, host, one))
}

fn row(alloc: Global, host: &mut Host, case: &Case) -> Result<String, AllocError> {
    let mut text = title(alloc, host, case)?;
    for one in case.acts {
        append(alloc, &mut text, host, one)?;
    }
    Ok(text)
}

/// What a row gives: its name with the blocks at the opening, and then a line an act.
pub(crate) fn describe(alloc: Global, case: &Case) -> Result<String, AllocError> {
    match Host::build(alloc, words_of(case), &ROOM) {
        Ok(mut host) => row(alloc, &mut host, case),
        Err(_) => format!(in alloc; "no memory"),
    }
}

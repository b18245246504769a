use crate::host::Host;
use std::alloc::{AllocError, Global};
use usb_base::{EndCause, EpName, OfferError, Report, Way, What};

fn way(way: Way) -> &'static str {
    match way {
        Way::In => "in",
        Way::Out => "out",
        Way::Ctl => "ctl",
    }
}

pub(crate) fn cause(cause: EndCause) -> &'static str {
    match cause {
        EndCause::Stall => "stall",
        EndCause::Error => "error",
        EndCause::Babble => "babble",
        EndCause::Miss => "miss",
        EndCause::Cancel => "cancel",
    }
}

/// An endpoint as reports name it.
pub(crate) fn name(alloc: Global, name: &EpName) -> Result<String, AllocError> {
    format!(in alloc; "{}.{}.{}", name.addr.get(), name.num.get(), way(name.way))
}

/// Adds a text that was made.
pub(crate) fn put(text: &mut String, made: Result<String, AllocError>) -> Result<(), AllocError> {
    let more = made?;
    text.push_str(more.as_str())
}

/// A word, and behind it a text that was made.
pub(crate) fn after(
    alloc: Global,
    word: &str,
    made: Result<String, AllocError>,
) -> Result<String, AllocError> {
    let more = made?;
    format!(in alloc; "{word}{}", more.as_str())
}

/// Why a command is refused.
pub(crate) fn refusal(alloc: Global, why: OfferError) -> Result<String, AllocError> {
    match why {
        OfferError::Busy => format!(in alloc; "busy"),
        OfferError::NoEndpoint => format!(in alloc; "no-endpoint"),
        OfferError::Closed(first) => format!(in alloc; "closed {}", cause(first)),
        OfferError::AlreadyOpen => format!(in alloc; "already-open"),
        OfferError::TooLong => format!(in alloc; "too-long"),
        OfferError::NoPlacement => format!(in alloc; "no-placement"),
        OfferError::NotEnded => format!(in alloc; "not-ended"),
        OfferError::HubClosed => format!(in alloc; "hub-closed"),
        OfferError::NoBlocks { need, largest } => format!(in alloc; "no-blocks {need} {largest}"),
    }
}

/// The text of a line that is one word.
fn word(what: What) -> Option<&'static str> {
    match what {
        What::Done => Some("done"),
        What::Miss => Some("miss"),
        What::Cancel => Some("cancel"),
        What::Clear => Some("clear"),
        What::DiskReset => Some("reset"),
        _ => None,
    }
}

/// The text of a line that has a cause.
fn caused(what: What) -> Option<(&'static str, EndCause)> {
    match what {
        What::Halt(first) => Some(("halt", first)),
        What::ClearFailed(first) => Some(("clear failed", first)),
        _ => None,
    }
}

/// A refused command, with the line of its script.
fn refused(alloc: Global, line: u32, why: OfferError) -> Result<String, AllocError> {
    let text = refusal(alloc, why)?;
    format!(in alloc; "line {line} refused {}", text.as_str())
}

/// The text of a line that has numbers.
fn counted(alloc: Global, what: What) -> Result<String, AllocError> {
    match what {
        What::Port { port, value } => format!(in alloc; "port {port} {value:08x}"),
        What::Disk { tag, passed } => format!(in alloc; "disk {tag} {passed}"),
        What::Iso { errors } => format!(in alloc; "iso {errors}"),
        What::Refused { line, why } => refused(alloc, line, why),
        _ => Ok(String::new(alloc)),
    }
}

fn what(alloc: Global, what: What) -> Result<String, AllocError> {
    if let Some(text) = word(what) {
        return format!(in alloc; "{text}");
    }
    match caused(what) {
        Some((text, first)) => format!(in alloc; "{text} {}", cause(first)),
        None => counted(alloc, what),
    }
}

/// What a line of the report begins with: its kind, its endpoint, and the number of its bytes.
fn head(alloc: Global, report: &Report) -> Result<String, AllocError> {
    let told = what(alloc, report.what)?;
    let named = name(alloc, &report.name)?;
    format!(in alloc; "{} {} {}", told.as_str(), named.as_str(), report.len)
}

/// A line of the report: the number of its bytes, and those of them that aren't 0, with their places.
fn line(alloc: Global, report: &Report, store: &[u8]) -> Result<String, AllocError> {
    let mut text = head(alloc, report)?;
    for place in 0..report.len {
        let byte = match store.get(report.from as usize + place as usize) {
            Some(byte) => *byte,
            None => 0,
        };
        if byte != 0 {
            put(&mut text, format!(in alloc; " {place}={byte:x}"))?;
        }
    }
    Ok(text)
}

/// The lines of the report after the first `before`.
pub(crate) fn since(alloc: Global, host: &Host, before: usize) -> Result<String, AllocError> {
    let mut text = String::new(alloc);
    let reports = host.driver().reports();
    for number in before..reports.len() {
        text.push_str("; ")?;
        put(
            &mut text,
            line(alloc, &reports[number], host.driver().store()),
        )?;
    }
    Ok(text)
}

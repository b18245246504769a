//! The packets of an event.
ghost use Rattle.std.specs.Prelude.{◌≡◌, ◌≤◌, ◌-◌, ◌++◌, IfOk, length};
ghost use Rattle.app_trace.specs.Captured.{begin_of, time_of, began_packets, made_packets, happening_packets, passed_packets, entry_packets};
ghost use Rattle.std.specs.List.{flat_map};

use app_trace_lines::{Entry, Happening};
use bus_packets::{Exchange, Passed, put_frame, put_packets};
use usb_base::Memory;
use usb_base::limits::MICROFRAME_TIME;

/// When a microframe began, in picoseconds from the begin of the first.
fn begin_of(microframe: u32) -> u64
    ensures time { result ≡ begin_of microframe }
    ensures few { result ≤ 536_870_912_000_000_000 }
{
    MICROFRAME_TIME * microframe.saturating_sub(1) as u64
}

/// When a transaction began, by its price and what was left behind it.
fn time_of(microframe: u32, price: u64, left: u64) -> u64
    ensures { result ≡ time_of microframe price left }
{
    begin_of(microframe) + MICROFRAME_TIME.saturating_sub(price.saturating_add(left))
}

/// Appends the SOF of a microframe, where the bus may be used.
#[tactic(auto, unfolding(crate::specs::Captured::began_packets))]
fn put_began(text: &mut Vec<u8>, microframe: u32, index: u16, allowed: bool) -> Result<(), Memory>
    ensures { IfOk result (λ _. text.new.items ≡ text.old.items ++ began_packets microframe index allowed) }
{
    if allowed {
        put_frame(text, begin_of(microframe), index)
    } else {
        Ok(())
    }
}

/// Appends the packets of a transaction, if one was made.
#[tactic(auto, unfolding(crate::specs::Captured::made_packets))]
fn put_made(
    text: &mut Vec<u8>,
    time: u64,
    exchange: &Option<Exchange>,
    sent: &[u8],
    got: &[u8],
) -> Result<(), Memory>
    requires sent { length sent.now ≤ 1024 }
    requires got { length got.now ≤ 1024 }
    ensures { IfOk result (λ _. text.new.items ≡ text.old.items ++ made_packets time exchange.now sent.now got.now) }
{
    match exchange {
        Some(x) => put_packets(text, time, x, sent, got),
        None => Ok(()),
    }
}

/// Appends the packets that went in what happened.
#[tactic(auto, unfolding(crate::specs::Captured::happening_packets))]
fn put_happening(
    text: &mut Vec<u8>,
    microframe: u32,
    index: u16,
    happening: &Happening,
    sent: &[u8],
    got: &[u8],
) -> Result<(), Memory>
    requires sent { length sent.now ≤ 1024 }
    requires got { length got.now ≤ 1024 }
    ensures { IfOk result (λ _. text.new.items ≡ text.old.items ++ happening_packets microframe index happening.now sent.now got.now) }
{
    match happening {
        Happening::Began(allowed) => put_began(text, microframe, index, *allowed),
        Happening::Controller {
            exchange,
            price,
            left,
            ..
        } => put_made(
            text,
            time_of(microframe, *price, *left),
            exchange,
            sent,
            got,
        ),
        Happening::Driver { .. } | Happening::Offered(_, _) => Ok(()),
    }
}

/// Appends the packets of a transaction below a translator, in a microframe that began at this time.
#[tactic(auto, unfolding(crate::specs::Captured::passed_packets))]
fn put_passed(text: &mut Vec<u8>, ps: u64, passed: &Passed) -> Result<(), Memory>
    ensures { IfOk result (λ _. text.new.items ≡ text.old.items ++ passed_packets ps passed.now) }
{
    put_packets(
        text,
        ps.saturating_add(passed.time),
        &passed.exchange,
        passed.sent.as_slice(),
        passed.got.as_slice(),
    )
}

fn put_all_passed(text: &mut Vec<u8>, ps: u64, all: &[Passed]) -> Result<(), Memory>
    ensures { IfOk result (λ _. text.new.items ≡ text.old.items ++ flat_map (passed_packets ps) all.now) }
{
    for passed in all {
        put_passed(text, ps, passed)?;
    }
    Ok(())
}

/// Appends the packets that went in an event, each in its block, and before them those that went below in the microframe that ended. The bytes are those of the data that went in its transaction.
///
/// # Errors
///
/// `Memory` where they find no room; then a front part of them may have been appended.
#[tactic(auto, unfolding(crate::specs::Captured::entry_packets))]
pub fn put_entry_packets(
    text: &mut Vec<u8>,
    entry: &Entry,
    passed: &[Passed],
    sent: &[u8],
    got: &[u8],
) -> Result<(), Memory>
    requires sent { length sent.now ≤ 1024 }
    requires got { length got.now ≤ 1024 }
    ensures { IfOk result (λ _. text.new.items ≡ text.old.items ++ entry_packets entry.now passed.now sent.now got.now) }
{
    put_all_passed(text, begin_of(entry.microframe.saturating_sub(1)), passed)?;
    put_happening(
        text,
        entry.microframe,
        entry.frame_index,
        &entry.happening,
        sent,
        got,
    )
}

//! What a device took, epoch by epoch (USB 2.0, 9.4.5).
ghost use Rattle.std.specs.Prelude.{◌≡◌, ◌<◌, ◌^◌, length, take, drop, IfOk};
ghost use Rattle.usb_base.specs.Outside.{Prints};
ghost use Rattle.drv_table.specs.DriverContent.{is_same_way, is_same_name};
ghost use Rattle.bus_world.specs.ClosingAtWork.{mark_text, mark_end, taken_lines};

use crate::marks::Mark;
use report_text::print_taken;
use usb_base::{EpName, Failed, Sink, Way};

/// Whether the ways are the same.
fn goes_same_way(a: Way, b: Way) -> bool
    ensures { result ≡ is_same_way a b }
{
    match (a, b) {
        (Way::In, Way::In) | (Way::Out, Way::Out) | (Way::Ctl, Way::Ctl) => true,
        _ => false,
    }
}

/// Whether the names are the same.
fn has_same_name(a: &EpName, b: &EpName) -> bool
    ensures { result ≡ is_same_name a.now b.now }
{
    a.addr.get() == b.addr.get() && a.num.get() == b.num.get() && goes_same_way(a.way, b.way)
}

/// The bytes from a place on; none where there are fewer.
fn behind(bytes: &[u8], from: usize) -> &[u8]
    ensures { result.now ≡ drop from bytes.now }
{
    if from >= bytes.len() {
        return &[];
    }
    &bytes[from..]
}

/// The first bytes, at most so many.
fn first(bytes: &[u8], count: usize) -> &[u8]
    ensures { result.now ≡ take count bytes.now }
{
    if count >= bytes.len() {
        return bytes;
    }
    &bytes[..count]
}

/// Writes the line of the epoch that a reset ended, if it was of this endpoint; tells where the next one begins.
fn print_epoch<K: Sink>(
    mark: &Mark,
    name: &EpName,
    taken: &[u8],
    from: usize,
    sink: &mut K,
) -> Result<usize, Failed>
    requires { length taken.now < 2 ^ 32 }
    ensures printed { Prints K.written K.faults sink.old sink.new result (mark_text mark.now name.now taken.now from) }
    ensures next { IfOk result (λ to. to ≡ mark_end mark.now name.now from) }
{
    if !has_same_name(&mark.name, name) {
        return Ok(from);
    }
    let count = mark.taken.saturating_sub(from);
    print_taken(name, first(behind(taken, from), count), sink)?;
    Ok(mark.taken)
}

/// Writes a line of what was taken for each epoch of an endpoint, in their order.
pub(crate) fn print_epochs<K: Sink>(
    marks: &[Mark],
    name: &EpName,
    taken: &[u8],
    sink: &mut K,
) -> Result<(), Failed>
    requires { length taken.now < 2 ^ 32 }
    ensures { Prints K.written K.faults sink.old sink.new result (taken_lines marks.now name.now taken.now) }
{
    let mut from: usize = 0;
    for mark in marks {
        from = print_epoch(mark, name, taken, from, sink)?;
    }
    print_taken(name, behind(taken, from), sink)
}

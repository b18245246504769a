//! Counting over the report and the endpoints of a world.
ghost use Rattle.std.specs.Prelude.{◌≡◌, ◌<◌, ◌^◌, length, sum_by, count_by};
ghost use Rattle.report_load.specs.Summary.{is_refused, is_done, is_halted, lines_of, done_bytes, waiting_at, summary_of};

use crate::summary::Summary;
use bus_wire::Seat;
use bus_world::World;
use usb_base::{EpName, Report, What};

fn is_refused(what: What) -> bool
    ensures { result ≡ is_refused what }
{
    matches!(what, What::Refused { .. })
}

fn is_done(what: What) -> bool
    ensures { result ≡ is_done what }
{
    what == What::Done
}

fn is_halted(what: What) -> bool
    ensures { result ≡ is_halted what }
{
    matches!(what, What::Halt(_) | What::Miss)
}

fn count_refused(reports: &[Report]) -> u64
    ensures { result ≡ lines_of is_refused reports.now }
{
    let refused = reports.iter().filter(|report| is_refused(report.what));
    refused.count() as u64
}

fn count_done(reports: &[Report]) -> u64
    ensures { result ≡ lines_of is_done reports.now }
{
    let done = reports.iter().filter(|report| is_done(report.what));
    done.count() as u64
}

fn count_halted(reports: &[Report]) -> u64
    ensures { result ≡ lines_of is_halted reports.now }
{
    let halted = reports.iter().filter(|report| is_halted(report.what));
    halted.count() as u64
}

/// The bytes of a line that tells of something done.
fn done_bytes(report: &Report) -> u32
    ensures { result ≡ done_bytes report.now }
{
    if is_done(report.what) {
        return report.len;
    }
    0
}

/// The bytes of all that was done.
fn sum_done(reports: &[Report]) -> u128
    ensures { result ≡ sum_by done_bytes reports.now }
{
    let mut bytes: u128 = 0;
    for report in reports {
        bytes += done_bytes(report) as u128;
    }
    bytes
}

/// How much waits at an endpoint that hasn't ended.
fn waiting_at(world: &World, seat: &Seat) -> u32
    ensures { result ≡ waiting_at world.now.work.world.driver seat.now }
{
    if world.driver().ended(&seat.name).is_some() {
        return 0;
    }
    world.driver().pending(&seat.name)
}

/// How much waits at these endpoints.
fn sum_waiting(world: &World, seats: &[Seat]) -> u128
    ensures { result ≡ sum_by (waiting_at world.now.work.world.driver) seats.now }
{
    let mut pending: u128 = 0;
    for seat in seats {
        pending += waiting_at(world, seat) as u128;
    }
    pending
}

/// What the report of a world counts. It takes no memory.
pub fn summary_of(world: &World) -> Summary
    ensures { result ≡ summary_of world.now.fixed world.now.work.world }
{
    let reports = world.driver().reports();
    Summary {
        refused: count_refused(reports),
        done: count_done(reports),
        halted: count_halted(reports),
        pending: sum_waiting(world, world.seats()),
        bytes: sum_done(reports),
    }
}

//! Why an endpoint found no placement: the budgets that its first allowed placements break.
ghost use Rattle.std.specs.Prelude.{◌≡◌, true};
ghost use Rattle.bandwidth.specs.Placements.{IsWant};
ghost use Rattle.drv_table.specs.Offers.{IsOpened};
ghost use Rattle.drv_periodic_table.specs.Periodic.{is_periodic, want_of};

use crate::breaches::{Breach, first_breach};
use crate::classes::put_letters;
use crate::loads::{neighbour_of, put_share};
use crate::options::{placement_of, starts};
use app_trace_lines::{put, put_endpoint, put_number};
use bandwidth::{Placement, Plan, Want};
use drv_table::Endpoint;
use usb_base::limits::{BYTE_TIMES_OF_MICROFRAME, FRAME_BUDGET, MICROFRAME_BUDGET};
use usb_base::{Dir, EpDesc, EpKind, Memory, Way};

/// The most placements that are told of a refusal.
const MOST: u32 = 8;

/// What an endpoint so described asks of the plan.
fn want_by(desc: &EpDesc) -> Want
    ensures { result ≡ want_of 0 desc.now }
{
    Want {
        id: 0,
        speed: desc.speed,
        kind: desc.kind,
        dir: match desc.name.way {
            Way::In => Dir::In,
            Way::Out | Way::Ctl => Dir::Out,
        },
        max: desc.max,
        multi: desc.multi,
        period: desc.period,
        hub: desc.hub,
        tt: desc.tt,
    }
}

/// Whether an endpoint of this kind has a place in the frame list.
fn is_in_frames(kind: EpKind) -> bool
    ensures { result ≡ is_periodic kind }
{
    match kind {
        EpKind::Interrupt | EpKind::Iso => true,
        EpKind::Bulk | EpKind::Control => false,
    }
}

/// Appends a sum beside its place, and its budget.
fn put_sum(text: &mut Vec<u8>, what: &str, at: u16, sum: u64, budget: &str) -> Result<(), Memory> {
    put(text, what)?;
    put_number(text, at as u64)?;
    put(text, " ")?;
    put_number(text, sum)?;
    put(text, budget)
}

/// Appends a budget that breaks.
fn put_breach(text: &mut Vec<u8>, breach: Option<Breach>) -> Result<(), Memory> {
    // (`MICROFRAME_BUDGET`, `BYTE_TIMES_OF_MICROFRAME` and `FRAME_BUDGET`)
    match breach {
        Some(Breach::Load(at, sum)) => {
            put_sum(
                text,
                ": bus time of microframe ",
                at,
                sum,
                " of 100000000, ",
            )?;
            put_share(text, sum, MICROFRAME_BUDGET)
        }
        Some(Breach::Bytes(at, sum)) => {
            put_sum(text, ": byte-times of microframe ", at, sum, " of 188, ")?;
            put_share(text, sum, BYTE_TIMES_OF_MICROFRAME as u64)
        }
        Some(Breach::Frame(at, sum)) => {
            let budget = " below the hub of 900000000, ";
            put_sum(text, ": bus time of frame ", at, sum, budget)?;
            put_share(text, sum, FRAME_BUDGET)
        }
        None => Ok(()),
    }
}

/// Appends the line of a placement.
fn put_placement(
    text: &mut Vec<u8>,
    placement: &Placement,
    breach: Option<Breach>,
) -> Result<(), Memory> {
    put(text, "  ")?;
    put_letters(text, placement)?;
    put(text, " phase ")?;
    put_number(text, placement.phase as u64)?;
    put_breach(text, breach)?;
    put(text, "\n")
}

/// Appends the lines of the first allowed placements.
fn put_placements(
    text: &mut Vec<u8>,
    want: &Want,
    neighbour: Option<u32>,
    plan: &Plan,
) -> Result<(), Memory>
    requires { IsWant want.now }
{
    let mut told = 0u32;
    for phase in 0..u16::max(want.period / 8, 1) {
        for first in 0..starts(want) {
            if told >= MOST {
                return Ok(());
            }
            if !plan.is_slack(want, first) {
                continue;
            }
            told += 1;
            let placement = placement_of(want, phase, first);
            let breach = first_breach(plan, neighbour, want, &placement);
            put_placement(text, &placement, breach)?;
        }
    }
    Ok(())
}

/// Appends why the open on this line of a script found no placement beside what is placed: a line with the endpoint, and one for each of its first eight
/// allowed placements, by phase and then by first microframe, with the first budget that it breaks. An endpoint that isn't periodic has none.
///
/// # Errors
///
/// `Memory` where it finds no room.
pub fn put_refusal(
    text: &mut Vec<u8>,
    line: u32,
    desc: &EpDesc,
    endpoints: &[Endpoint],
    plan: &Plan,
) -> Result<(), Memory>
    requires { IsOpened desc.now }
{
    if !is_in_frames(desc.kind) {
        return Ok(());
    }
    put(text, "refused on line ")?;
    put_number(text, line as u64)?;
    put(text, ": ")?;
    put_endpoint(text, &desc.name)?;
    put(text, "\n")?;
    let neighbour = neighbour_of(endpoints, plan, desc);
    put_placements(text, &want_by(desc), neighbour, plan)
}

//! The budgets that a placement breaks beside what is placed (USB 2.0, 5.5.4, 5.6.4 and 11.18.1).
ghost use Rattle.std.specs.Prelude.{◌<◌};
ghost use Rattle.usb_base.specs.Limits.{frame_list_length};
ghost use Rattle.bandwidth.specs.Placements.{IsWant};

use crate::asks::{cost_of, laid_of, time_in_frame};
use crate::loads::cell;
use bandwidth::{Placement, Plan, Want};
use std::marker::Brand;
use std::sync::ledger::Blank;
use usb_base::limits::{
    BYTE_TIMES_OF_MICROFRAME, FRAME_BUDGET, FRAME_LIST_LENGTH, MICROFRAME_BUDGET,
};

/// A budget that a placement breaks, with the sum that it would have.
#[derive(Clone, Copy)]
pub(crate) enum Breach {
    /// The bus time of a microframe.
    Load(u16, u64),
    /// The byte-times of its translator in a microframe.
    Bytes(u16, u64),
    /// The bus time of a frame below its translator.
    Frame(u16, u64),
}

/// The byte-times in a microframe, in the translator that serves the endpoint of this number.
fn bytes_at(plan: &Plan, neighbour: Option<u32>, microframe: u16) -> u64
    requires { microframe < 8192 }
{
    match plan.byte_sums(neighbour.unwrap_or(u32::MAX)) {
        Some(sums) => cell::<Brand>(sums, microframe as u32, Blank::new(1)),
        None => 0,
    }
}

/// The bus time of a frame below the translator that serves the endpoint of this number.
fn time_at(plan: &Plan, neighbour: Option<u32>, frame: u16) -> u64
    requires { frame < frame_list_length }
{
    match plan.frame_sums(neighbour.unwrap_or(u32::MAX)) {
        Some(sums) => cell::<Brand>(sums, frame as u32, Blank::new(1)),
        None => 0,
    }
}

/// A budget of a microframe of an active frame: its bus time, else its byte-times.
fn in_microframe(
    plan: &Plan,
    neighbour: Option<u32>,
    want: &Want,
    placement: &Placement,
    microframe: u16,
) -> Option<Breach>
    requires want { IsWant want.now }
    requires microframe { microframe < 8192 }
{
    let m = (microframe % 8) as u8;
    let time = plan.load(microframe).0 + cost_of(want, placement, m);
    if time > MICROFRAME_BUDGET {
        return Some(Breach::Load(microframe, time));
    }
    let laid = laid_of(want, placement, m);
    let bytes = bytes_at(plan, neighbour, microframe).saturating_add(laid);
    if bytes > BYTE_TIMES_OF_MICROFRAME as u64 {
        return Some(Breach::Bytes(microframe, bytes));
    }
    None
}

/// A budget of an active frame: those of its microframes first.
fn in_frame(
    plan: &Plan,
    neighbour: Option<u32>,
    want: &Want,
    placement: &Placement,
    frame: u16,
) -> Option<Breach>
    requires want { IsWant want.now }
    requires frame { frame < frame_list_length }
{
    for m in 0..8u16 {
        let breach = in_microframe(plan, neighbour, want, placement, 8 * frame + m);
        if breach.is_some() {
            return breach;
        }
    }
    let time = time_at(plan, neighbour, frame).saturating_add(time_in_frame(want));
    if want.hub.is_some() && time > FRAME_BUDGET {
        return Some(Breach::Frame(frame, time));
    }
    None
}

/// The first budget that a placement breaks, by its active frames. The endpoint of the number `neighbour` is placed below the same translator, if there is one.
pub(crate) fn first_breach(
    plan: &Plan,
    neighbour: Option<u32>,
    want: &Want,
    placement: &Placement,
) -> Option<Breach>
    requires { IsWant want.now }
{
    let frames = u16::max(placement.period / 8, 1);
    for frame in 0..FRAME_LIST_LENGTH as u16 {
        if frame % frames == placement.phase {
            let breach = in_frame(plan, neighbour, want, placement, frame);
            if breach.is_some() {
                return breach;
            }
        }
    }
    None
}

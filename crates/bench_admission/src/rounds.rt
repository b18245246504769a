//! Admits endpoints and takes each out again, over and over, beside so many placed ones.
ghost use Rattle.std.specs.Prelude.{◌≤◌};
ghost use Rattle.bandwidth.specs.Placements.{IsWant};

use crate::draws::{Draws, FIRST_RULES, any_want, long_high, long_in, long_out, small};
use bandwidth::{Plan, Want};
use std::alloc::{AllocError, Global};
use usb_base::Memory;

/// The id of what comes and goes.
const GUEST: u32 = 1_000_000;

/// Which endpoints come and go.
#[derive(Clone, Copy)]
pub(crate) enum Guests {
    /// Any that are drawn.
    Drawn,
    /// One high-speed interrupt endpoint of the longest period, which has the most placements.
    LongHigh,
    /// One classic isochronous OUT endpoint of three parts and of the longest period, whose placements have the most cells.
    LongOut,
    /// The same of the shortest period, whose placements have the most frames.
    ShortOut,
    /// One classic isochronous IN endpoint of two parts and of the longest period.
    LongIn,
    /// The same of the shortest period: no admission reads and writes more cells.
    ShortIn,
}

/// A plan with so many small endpoints.
fn filled(alloc: Global, placed: u32) -> Result<Plan, Memory> {
    let mut plan = Plan::build(alloc, placed.saturating_add(1), FIRST_RULES)?;
    for id in 0..placed {
        let want = small(id);
        if !plan.has(want.id) {
            let _answer = plan.admit(&want);
        }
    }
    Ok(plan)
}

/// The next endpoint that comes and goes.
fn next_guest(guests: Guests, draws: &mut Draws) -> Want
    ensures { IsWant result }
{
    match guests {
        Guests::Drawn => any_want(GUEST, draws),
        Guests::LongHigh => long_high(GUEST),
        Guests::LongOut => long_out(GUEST, 8192),
        Guests::ShortOut => long_out(GUEST, 8),
        Guests::LongIn => long_in(GUEST, 8192),
        Guests::ShortIn => long_in(GUEST, 8),
    }
}

/// Admits an endpoint and takes it out again; whether it was placed.
fn come_and_go(plan: &mut Plan, want: &Want) -> bool
    requires { IsWant want.now }
{
    if plan.has(want.id) || plan.admit(want).is_err() {
        return false;
    }
    plan.remove(want.id)
}

/// How many were placed in so many rounds.
fn rounds(alloc: Global, guests: Guests, placed: u32, rounds: u32) -> Result<u32, Memory> {
    let mut plan = filled(alloc, placed)?;
    let mut draws = Draws::new(placed);
    let mut admitted = 0u32;
    for _k in 0..rounds {
        let want = next_guest(guests, &mut draws);
        if come_and_go(&mut plan, &want) {
            admitted = admitted.saturating_add(1);
        }
    }
    Ok(admitted)
}

/// What so many rounds give.
pub(crate) fn describe(
    alloc: Global,
    guests: Guests,
    placed: u32,
    count: u32,
) -> Result<String, AllocError> {
    match rounds(alloc, guests, placed, count) {
        Ok(admitted) => format!(in alloc; "placed {admitted} of {count}"),
        Err(Memory) => format!(in alloc; "no memory"),
    }
}

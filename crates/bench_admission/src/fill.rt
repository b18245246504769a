ghost use Rattle.std.specs.Prelude.{◌≤◌, IfOk};

use crate::draws::{Draws, FIRST_RULES, want};
use bandwidth::Plan;
use std::alloc::{AllocError, Global};
use usb_base::Memory;

/// How many endpoints one plan is asked for.
const ROOM: u32 = 256;

/// Fills one plan with so many drawn endpoints, and tells how many were placed.
fn fill_one(alloc: Global, draws: &mut Draws, wants: u32) -> Result<u32, Memory>
    ensures { IfOk result (λ n. n ≤ wants) }
{
    let mut plan = Plan::build(alloc, wants, FIRST_RULES)?;
    let mut placed = 0;
    for id in 0..wants {
        let want = want(id, draws);
        if !plan.has(want.id) && plan.admit(&want).is_ok() {
            placed += 1;
        }
    }
    Ok(placed)
}

/// Fills plan after plan, and tells how many endpoints were placed.
fn fill(alloc: Global, seed: u32, wants: u32) -> Result<u32, Memory> {
    let mut draws = Draws::new(seed);
    let mut left = wants;
    let mut placed = 0;
    while left > 0 {
        let many = left.min(ROOM);
        placed += fill_one(alloc, &mut draws, many)?;
        left -= many;
    }
    Ok(placed)
}

/// What so many endpoints of a seed give.
pub(crate) fn describe(alloc: Global, seed: u32, wants: u32) -> Result<String, AllocError> {
    match fill(alloc, seed, wants) {
        Ok(placed) => format!(in alloc; "placed {placed} of {wants}"),
        Err(Memory) => format!(in alloc; "no memory"),
    }
}

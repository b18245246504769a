ghost use Rattle.std.specs.Prelude.{◌≡◌, ◌+◌, ◌*◌, ◌<◌, ◌≤◌};
ghost use Rattle.bandwidth.specs.Placements.{IsWant, frame_period, in_phase, placement_row, placement_at};
ghost use Rattle.bandwidth.specs.Shapes.{turns, cells, IsShape, AreShapes};
ghost use Rattle.bandwidth.specs.Admission.{best};
ghost use Rattle.bandwidth.specs.Choice.{lesser, limit, better, choice, place_in};

use crate::accounts::Accounts;
use crate::choice::Candidate;
use crate::frames::frames_of;
use crate::options::{is_slack, starts};
use crate::placements::{Placement, Want};
use crate::shapes::Shape;
use bandwidth_steps::{CountedBy, Steps};
use std::sync::ledger::Ledger;
use usb_base::Rules;
use usb_base::limits::MICROFRAME_BUDGET;

/// The one with the lesser peak, the one so far where they are equal.
#[inline(always)]
fn lesser_of(so_far: Option<Candidate>, new: Candidate) -> Option<Candidate>
    ensures { result ≡ lesser so_far new }
{
    match so_far {
        None => Some(new),
        Some(old) => {
            if new.peak < old.peak {
                Some(new)
            } else {
                Some(old)
            }
        }
    }
}

/// The placement of a candidate.
fn placement_in(best: Option<Candidate>) -> Option<Placement>
    ensures { result ≡ place_in best }
{
    match best {
        Some(candidate) => Some(candidate.placement),
        None => None,
    }
}

/// The greatest peak, in picoseconds, with which a placement keeps the budget of microframes and is better than the candidate so far.
#[inline(always)]
fn limit_of(so_far: &Option<Candidate>) -> u64
    ensures { result ≡ limit so_far.now }
{
    match so_far {
        None => MICROFRAME_BUDGET,
        Some(old) => old.peak.saturating_sub(1).min(MICROFRAME_BUDGET),
    }
}

/// The better of the candidate so far and a placement.
#[inline(always)]
fn better_of<L: Ledger, C: CountedBy<L>>(
    accounts: &Accounts<C>,
    rules: Rules,
    want: &Want,
    shape: &Shape,
    phase: u16,
    so_far: Option<Candidate>,
    steps: &mut Steps<L>,
) -> Option<Candidate>
    requires want { IsWant want.now }
    requires shape { IsShape want.now shape.now }
    requires phase { phase < frame_period want.now.period }
    ensures better { result ≡ better rules accounts.now.placed want.now so_far (placement_at want.now phase shape.now.costs.from) }
    ensures steps { steps.new ≤ steps.old + turns want.now.period * cells want.now }
{
    if !is_slack(rules, want, shape.costs.from) {
        return so_far;
    }
    let placement = shape.placed(want.period, phase);
    let limit = limit_of(&so_far);
    let least = accounts.least_peak(want, &placement, shape, steps);
    if limit < least {
        return so_far;
    }
    match accounts.kept_peak(want, &placement, shape, limit, steps) {
        Some(peak) => lesser_of(so_far, Candidate { placement, peak }),
        None => so_far,
    }
}

/// The best of the candidate so far and the placements of one phase.
#[inline(always)]
fn best_in_phase<L: Ledger, C: CountedBy<L>>(
    accounts: &Accounts<C>,
    rules: Rules,
    want: &Want,
    shapes: &[Shape; 8],
    phase: u16,
    so_far: Option<Candidate>,
    steps: &mut Steps<L>,
) -> Option<Candidate>
    requires want { IsWant want.now }
    requires phase { phase < frame_period want.now.period }
    requires shapes { AreShapes want.now shapes.now }
    ensures best { result ≡ choice rules accounts.now.placed want.now so_far (in_phase want.now phase) }
    ensures steps { steps.new ≤ steps.old + (placement_row want.now).starts * (turns want.now.period * cells want.now) }
{
    let mut best = so_far;
    for first in 0..starts(want) {
        best = better_of(
            accounts,
            rules,
            want,
            &shapes[first as usize],
            phase,
            best,
            steps,
        );
    }
    best
}

/// The allowed placement that keeps every budget with the least peak, the first of these.
pub(crate) fn best_placement<L: Ledger, C: CountedBy<L>>(
    accounts: &Accounts<C>,
    rules: Rules,
    want: &Want,
    shapes: &[Shape; 8],
    steps: &mut Steps<L>,
) -> Option<Placement>
    requires want { IsWant want.now }
    requires shapes { AreShapes want.now shapes.now }
    ensures best { result ≡ best rules accounts.now.placed want.now }
    ensures steps { steps.new ≤ steps.old + frame_period want.now.period * ((placement_row want.now).starts * (turns want.now.period * cells want.now)) }
{
    let mut best = None;
    for phase in 0..frames_of(want.period) {
        best = best_in_phase(accounts, rules, want, shapes, phase, best, steps);
    }
    placement_in(best)
}

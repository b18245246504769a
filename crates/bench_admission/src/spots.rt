//! The placements of an endpoint, and what each does in its frames (EHCI 1.0, 4.12; USB 2.0, 11.18), written out apart from the
//! library's own.

ghost use Rattle.std.specs.Prelude.{◌<◌, ◌≤◌};

use bandwidth::{Placement, Want};
use usb_base::{Dir, EpKind, Speed, cost, tt_bytes};

/// How many frames a period has, 1 below 8 microframes.
pub(crate) fn frames_of(period: u16) -> u32
    ensures { 1 ≤ result }
{
    (period as u32 / 8).max(1)
}

/// How many microframes of 188 bytes so many bytes fill.
fn parts(bytes: u32) -> u32 {
    bytes.saturating_add(187) / 188
}

/// How many first microframes a placement may have.
pub(crate) fn starts_of(want: &Want) -> u32 {
    if want.speed == Speed::High {
        return (want.period as u32).min(8);
    }
    match (want.kind, want.dir) {
        (EpKind::Iso, Dir::In) => 6u32.saturating_sub(parts(want.max as u32 + 9)),
        (EpKind::Iso, Dir::Out) => 7u32.saturating_sub(parts(want.max as u32)),
        (_, _) => 4,
    }
}

/// The mask of `count` microframes from `from` on.
fn run(from: u32, count: u32) -> u8 {
    let mut mask = 0u8;
    for m in 0..8u32 {
        if from <= m && m < from.saturating_add(count) {
            mask |= 1 << m;
        }
    }
    mask
}

/// The mask of every `step`th microframe from `from` on.
fn every(step: u32, from: u32) -> u8
    requires { 1 ≤ step }
{
    let mut mask = 0u8;
    for m in 0..8u32 {
        if m % step == from {
            mask |= 1 << m;
        }
    }
    mask
}

/// The masks of a placement from a first microframe on.
fn masks_of(want: &Want, first: u32) -> (u8, u8) {
    let second = first.saturating_add(2);
    let bytes = want.max as u32;
    match (want.speed, want.kind, want.dir) {
        (Speed::High, _, _) => (every((want.period as u32).clamp(1, 8), first), 0),
        (_, EpKind::Iso, Dir::In) => (
            run(first, 1),
            run(second, parts(bytes + 9).saturating_add(1)),
        ),
        (_, EpKind::Iso, Dir::Out) => (run(first, parts(bytes)), 0),
        (_, _, _) => (run(first, 1), run(second, 3)),
    }
}

/// The placement of a phase and a first microframe.
pub(crate) fn placement_of(want: &Want, phase: u32, first: u32) -> Placement {
    let (smask, cmask) = masks_of(want, first);
    Placement {
        period: want.period,
        phase: phase.min(1023) as u16,
        smask,
        cmask,
    }
}

/// How many microframes `m` is behind the first of a placement, if it isn't before it.
fn part_of(placement: &Placement, m: u32) -> Option<u32> {
    for first in 0..8u32 {
        if placement.smask >> first & 1 == 1 {
            return m.checked_sub(first);
        }
    }
    None
}

/// The bytes of the transaction in microframe `m` of an active frame, `None` where there is none.
fn bytes_in(want: &Want, placement: &Placement, m: u32) -> Option<u16>
    requires { m < 8 }
{
    let all = want.max;
    if placement.smask >> m & 1 == 1 {
        let part = part_of(placement, m).unwrap_or(0);
        return Some(match (want.speed, want.kind, want.dir) {
            (Speed::High, _, _) => all,
            (_, _, Dir::In) => 0,
            (_, EpKind::Iso, Dir::Out) => (all as u32)
                .saturating_sub(part.saturating_mul(188))
                .min(188) as u16,
            (_, _, Dir::Out) => all,
        });
    }
    if placement.cmask >> m & 1 == 1 {
        return Some(match (want.kind, want.dir) {
            (_, Dir::Out) => 0,
            (EpKind::Iso, Dir::In) => all.min(188),
            (_, Dir::In) => all,
        });
    }
    None
}

/// The bus time of microframe `m` of an active frame, in picoseconds.
fn cost_in(want: &Want, placement: &Placement, m: u32) -> u64
    requires { m < 8 }
{
    match bytes_in(want, placement, m) {
        Some(bytes) => {
            let once = cost(Speed::High, want.kind, want.dir, bytes.min(1024)).0;
            once.wrapping_mul(want.multi as u64)
        }
        None => 0,
    }
}

/// The bus times of the microframes of an active frame, in picoseconds.
pub(crate) fn costs_of(want: &Want, placement: &Placement) -> [u64; 8] {
    let mut costs = [0; 8];
    for m in 0..8u32 {
        costs[m as usize] = cost_in(want, placement, m);
    }
    costs
}

/// The byte-times that an active frame lays in the translator; none at high speed.
fn byte_times(want: &Want) -> u32 {
    match want.speed {
        Speed::High => 0,
        Speed::Full => tt_bytes(Speed::Full, want.kind, want.max),
        Speed::Low => tt_bytes(Speed::Low, want.kind, want.max),
    }
}

/// The byte-times laid in the translator in the microframes of an active frame.
pub(crate) fn laid_of(want: &Want, placement: &Placement) -> [u64; 8] {
    let all = byte_times(want);
    let mut laid = [0; 8];
    for m in 0..8u32 {
        if let Some(part) = part_of(placement, m) {
            laid[m as usize] = all.saturating_sub(part.saturating_mul(188)).min(188) as u64;
        }
    }
    laid
}

/// The classic bus time of an active frame, in picoseconds.
pub(crate) fn time_of(want: &Want) -> u64 {
    cost(want.speed, want.kind, want.dir, want.max.min(1024)).0
}

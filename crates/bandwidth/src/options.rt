ghost use Rattle.std.specs.Prelude.{◌≡◌, ◌+◌, ◌-◌, ◌/◌, ◌<◌, ◌≤◌};
ghost use Rattle.usb_base.specs.Limits.{byte_times_of_microframe};
ghost use Rattle.bandwidth.specs.Placements.{IsWant, IsPlace, frame_period, high_row, classic_row, is_classic, is_slack_from, placement_row, placement_at};

use crate::asks::classic;
use crate::masks::{every_of, run_of};
use crate::placements::{Placement, Want};
use usb_base::limits::BYTE_TIMES_OF_MICROFRAME;
use usb_base::{Dir, EpKind, Rules};

/// How many microframes of 188 byte-times so many byte-times fill.
pub(crate) fn microframes(bytes: u16) -> u8
    requires { bytes ≤ 1032 }
    ensures value { result ≡ (bytes + (byte_times_of_microframe - 1)) / byte_times_of_microframe }
    ensures bound { result ≤ 6 }
{
    ((bytes + (BYTE_TIMES_OF_MICROFRAME - 1)) / BYTE_TIMES_OF_MICROFRAME) as u8
}

/// How many first microframes a placement may have in its frame.
pub(crate) fn starts(want: &Want) -> u8
    requires { IsWant want.now }
    ensures value { result ≡ (placement_row want.now).starts }
    ensures bound { result ≤ 8 }
{
    if !classic(want.speed) {
        return if want.period < 8 {
            want.period as u8
        } else {
            8
        };
    }
    match (want.kind, want.dir) {
        (EpKind::Iso, Dir::In) => 6 - microframes(want.max + 9),
        (EpKind::Iso, Dir::Out) => 7 - microframes(want.max),
        (_, _) => 4,
    }
}

/// Whether a placement from a first microframe on leaves the translator time for stuffed bits.
pub(crate) fn is_slack(rules: Rules, want: &Want, first: u8) -> bool
    requires want { IsWant want.now }
    requires first { first < (placement_row want.now).starts }
    ensures { result ≡ is_slack_from rules want.now first }
{
    if !classic(want.speed) {
        return true;
    }
    match (want.kind, want.dir) {
        (EpKind::Iso, Dir::Out) => !rules.stuffed || first + microframes(want.max + 9) <= 6,
        (_, _) => true,
    }
}

/// The microframes of a high-speed placement, with transactions alone.
fn high_masks(want: &Want, first: u8) -> (u8, u8)
    requires period { 1 ≤ want.now.period }
    requires first { first < (high_row want.now.period).starts }
    ensures smask { result.0 ≡ (high_row want.now.period).smask first }
    ensures cmask { result.1 ≡ (high_row want.now.period).cmask first }
{
    if want.period < 8 {
        return (every_of(want.period as u8, first), 0);
    }
    (run_of(first, 1), 0)
}

/// The microframes of a classic placement: those with start-splits, and those with complete-splits.
fn classic_masks(want: &Want, first: u8) -> (u8, u8)
    requires size { want.now.max ≤ 1023 }
    requires first { first < (classic_row want.now.kind want.now.dir want.now.max).starts }
    ensures smask { result.0 ≡ (classic_row want.now.kind want.now.dir want.now.max).smask first }
    ensures cmask { result.1 ≡ (classic_row want.now.kind want.now.dir want.now.max).cmask first }
{
    match (want.kind, want.dir) {
        (EpKind::Iso, Dir::In) => (
            run_of(first, 1),
            run_of(first + 2, microframes(want.max + 9) + 1),
        ),
        (EpKind::Iso, Dir::Out) => (run_of(first, microframes(want.max)), 0),
        (_, _) => (run_of(first, 1), run_of(first + 2, 3)),
    }
}

/// The microframes of a placement from a first one on.
fn masks(want: &Want, first: u8) -> (u8, u8)
    requires want { IsWant want.now }
    requires first { first < (placement_row want.now).starts }
    ensures smask { result.0 ≡ (placement_row want.now).smask first }
    ensures cmask { result.1 ≡ (placement_row want.now).cmask first }
{
    if classic(want.speed) {
        return classic_masks(want, first);
    }
    high_masks(want, first)
}

/// The allowed placement of a phase and a first microframe.
pub(crate) fn placement_of(want: &Want, phase: u16, first: u8) -> Placement
    requires want { IsWant want.now }
    requires phase { phase < frame_period want.now.period }
    requires first { first < (placement_row want.now).starts }
    ensures value { result ≡ placement_at want.now phase first }
    ensures place { IsPlace result }
{
    let (smask, cmask) = masks(want, first);
    Placement {
        period: want.period,
        phase,
        smask,
        cmask,
    }
}

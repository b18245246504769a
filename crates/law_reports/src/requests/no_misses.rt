//! No transfer of the ring misses a microframe.
ghost use Rattle.law_reports.specs.requests.Missed.{NewHeadIsUnmissed, NewQtdIsUnmissed, DummyIsUnmissed, WalkMissesNone, WritingMissesNone, ReleaseMissesNone, HarvestMissesNone};

use usb_base::Wire;

/// What a driver writes for an open and for a transfer tells no missed microframe. What comes to stand among structures that tell none, and what is given back,
/// leaves them so.
pub fn a_driver_writes_no_missed_microframe()
    ensures head { NewHeadIsUnmissed }
    ensures qtd { NewQtdIsUnmissed }
    ensures dummy { DummyIsUnmissed }
    ensures writing { WritingMissesNone }
    ensures release { ReleaseMissesNone }
{}

/// An event of the walk of the ring leaves them so.
pub fn walk_misses_none<W: Wire>()
    ensures { WalkMissesNone W.transacts }
{}

/// No harvest of a bulk or control endpoint finds a transfer that ended with a missed microframe.
pub fn harvest_misses_none()
    ensures { HarvestMissesNone }
{}

//! The laws of what each step of an endpoint's leave changes.
ghost use Rattle.law_queues.specs.leaving_drivers.Before.{CancelIsAsBefore, UnlinkIsAsBefore, BellIsAsBefore, StatusIsAsBefore, FrameIsAsBefore, ClearIsAsBefore};

/// An accepted cancel, and the store that unlinks the endpoint: a walk may meet the same endpoints.
pub fn a_cancel_leaves_the_rest()
    ensures cancel { CancelIsAsBefore }
    ensures unlink { UnlinkIsAsBefore }
{}

/// So it is while the doorbell is rung and listened for, and the frame index is read.
pub fn the_doorbell_leaves_the_rest()
    ensures bell { BellIsAsBefore }
    ensures status { StatusIsAsBefore }
    ensures frame { FrameIsAsBefore }
{}

/// Once Async Advance is cleared, a walk may meet no endpoint that it mightn't before.
pub fn clear_is_as_before()
    ensures { ClearIsAsBefore }
{}

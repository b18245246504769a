//! The laws of endpoints with a queue that leave.
ghost use Rattle.law_world.specs.memory.framed_memory.Leaving.{ClearedIsUnreached, ClearNarrowsNow, EndpointLeavesNow, EndpointReleaseNow, InterruptIsUnmet, InterruptIsUnreached, NarrowKeepsNow, RingIsUnmet};

/// The walk of the frames doesn't meet the queue head of an endpoint that is given back (4.6, 4.8.2 and 4.12.2): an interrupt endpoint left its frames, and a later frame was
/// read since, and one that left the ring never was in a frame.
pub fn an_endpoint_given_back_is_not_met()
    ensures frames { InterruptIsUnmet }
    ensures ring { RingIsUnmet }
{}

/// Nor may the walk of the ring reach it (4.8.2): an interrupt endpoint never was in the ring, and one that had left it when the doorbell was rung isn't reached any more once
/// Async Advance was cleared.
pub fn an_endpoint_given_back_is_not_reached()
    ensures interrupt { InterruptIsUnreached }
    ensures cleared { ClearedIsUnreached }
{}

/// An interrupt endpoint that left its frames is given back (4.6, 4.10): its queue head, the inactive qTD at the end of its queue, and the qTDs and buffers that its transfers
/// still had. All is framed without them.
pub fn endpoint_leaves_now()
    ensures { EndpointLeavesNow }
{}

/// So is an endpoint that left the ring, once the walk of the ring doesn't meet its queue head any more (4.8.2, 4.10).
pub fn endpoint_release_now()
    ensures { EndpointReleaseNow }
{}

/// The ring goes on with just those queue heads that its walk may reach, also where Async Advance is cleared (4.8.2): those that had left when the doorbell was rung are met no
/// more, and all is framed as before.
pub fn a_ring_that_narrows_is_framed_now()
    ensures ring { NarrowKeepsNow }
    ensures cleared { ClearNarrowsNow }
{}

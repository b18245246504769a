//! The laws.
ghost use Rattle.law_world.specs.steps.left_queues.Standing.{AsBeforeStands, ClearStands, ClearedUnmet, ClearedIsNoHead, EndpointReleaseStands};

/// An accepted cancel, the store that unlinks the endpoint, the doorbell and its status leave all that is told of the driver's queues.
pub fn as_before_stands()
    ensures { AsBeforeStands }
{}

/// Once Async Advance is cleared the walk meets those queue heads that are in the ring or left it since the doorbell was rung, and no others.
pub fn clear_stands()
    ensures { ClearStands }
{}

/// The walk doesn't meet an endpoint any more that is to be given back.
pub fn the_cleared_are_unmet()
    ensures unmet { ClearedUnmet }
    ensures head { ClearedIsNoHead }
{}

/// Where such an endpoint is given back, nothing is told of its queue any more, and all other queues stand as before.
pub fn endpoint_release_stands()
    ensures { EndpointReleaseStands }
{}

//! The laws.
ghost use Rattle.law_queues.specs.commanded_queues.Accepted.{NewHeadIsInRange, OpensItsOwn, ReachesOpen, ReachesAsked, ExtentsOpen, ExtentsAsked};

/// The queue head of a high-speed bulk or control endpoint has each field in its range.
pub fn new_head_is_in_range()
    ensures { NewHeadIsInRange }
{}

/// Only an open opens an endpoint, the one that it describes.
pub fn opens_its_own()
    ensures { OpensItsOwn }
{}

/// Each queue has its front and its tail still: an endpoint that is opened isn't met yet, and the tail of the one that is asked is the first qTD of the get, put
/// or request.
pub fn commands_leave_tails()
    ensures opened { ReachesOpen }
    ensures asked { ReachesAsked }
{}

/// Each buffer lies in the runs of its qTD still.
pub fn commands_leave_extents()
    ensures opened { ExtentsOpen }
    ensures asked { ExtentsAsked }
{}

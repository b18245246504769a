//! The host of a request of a control endpoint below a hub, its device, and what the hub has of both directions' keys.
ghost use Rattle.law_below_hubs.specs.HostRequests.{OwnRequestGoesOn, OthersLeaveRequest, BeginLeavesRequest};
ghost use Rattle.law_below_hubs.specs.HostRequests.{RequestOpens, RequestRests, OthersLeaveRest, BeginLeavesRest};
ghost use Rattle.law_below_hubs.specs.RequestEvents.{EventLeavesRequest, EventLeavesRest};
ghost use Rattle.law_below_hubs.specs.RequestWindows.{WalkKeepsWindow};
ghost use Rattle.law_below_hubs.specs.RequestQueues.{WalkKeepsQueue};
ghost use Rattle.law_below_hubs.specs.RequestMoves.{RingKeepsQueue, BesideKeepsQueue, RingKeepsRest, BesideKeepsRest};
ghost use Rattle.law_below_hubs.specs.RequestMoves.{RingKeepsLeft, BesideKeepsLeft};
ghost use Rattle.law_below_hubs.specs.RequestTurns.{RestOpensBelow, DoneRestsBelow};
ghost use Rattle.law_below_hubs.specs.RequestViews.{BelowIsAsked, AskedIsBelow, RestIsAtRest, AtRestIsBelow, AtRestIsLeft};

/// Each transaction of the request's host leaves all of them as they must stand in its window, with the host as the settlement says; so
/// does each of another host, but for a request that clears the hub's buffers; and so does the work of the hubs where a microframe begins,
/// with what the device acted on in it.
pub fn a_request_host_goes_on()
    ensures own { OwnRequestGoesOn }
    ensures others { OthersLeaveRequest }
    ensures begins { BeginLeavesRequest }
{}

/// Where nothing is asked of the endpoint, the window of a request opens; and so it is again where the request is done, or was halted but
/// not by errors. It stays so while none asks the endpoint.
pub fn a_control_endpoint_rests_below()
    ensures opens { RequestOpens }
    ensures rests { RequestRests }
    ensures others { OthersLeaveRest }
    ensures begins { BeginLeavesRest }
{}

/// An event of the controller, whichever walk it is of, that makes no transaction of the endpoint's queue head leaves hub and device as
/// they must stand, in the window of a request and between two.
pub fn an_event_leaves_a_request_below()
    ensures request { EventLeavesRequest }
    ensures rest { EventLeavesRest }
{}

/// Each event of the walk of the ring leaves the window of a request as it must stand, shown by memory and the copy in hand, but for
/// the advance of a request that is done: its own start-splits and complete-splits, their write-backs, the advance to its next qTD, and
/// all of other queue heads.
pub fn the_walk_keeps_a_window_below()
    ensures { WalkKeepsWindow }
{}

/// So it leaves the requests of an endpoint, one behind the other: one is under way, those before it are done, and acted on once, and those
/// behind it are laid out; where the one under way is done an advance begins the next.
pub fn the_walk_keeps_requests_below()
    ensures { WalkKeepsQueue }
{}

/// So does each event of the controller: where a microframe begins the device makes one transaction or none, and what it acts on in it is
/// of the window of the request under way; an event of the walk of the frames leaves the structures of the queue head.
pub fn the_controller_keeps_requests_below()
    ensures ring { RingKeepsQueue }
    ensures beside { BesideKeepsQueue }
{}

/// Between two requests each event of the controller leaves the queue head idle, and hub and device as they were. After errors ended a
/// request it leaves the queue head idle, and hub and device as they stand in its window: the device may still act on it, once.
pub fn the_controller_keeps_a_rest_below()
    ensures ring { RingKeepsRest }
    ensures beside { BesideKeepsRest }
    ensures ring_left { RingKeepsLeft }
    ensures beside_left { BesideKeepsLeft }
{}

/// Memory and the copy in hand show the requests of a control endpoint below a hub as those of any queue head, with the device as the host
/// has heard of it; with its hub they are those below it again, and so between two requests, and after errors.
pub fn requests_below_are_asked_alike()
    ensures asked { BelowIsAsked }
    ensures below { AskedIsBelow }
    ensures rests { RestIsAtRest }
    ensures rests_below { AtRestIsBelow }
    ensures left_below { AtRestIsLeft }
{}

/// Where a queue below a hub is at rest, the store of a SETUP at its end opens the window of its first request; and where memory shows that
/// its last request has ended, the device acted on it exactly once, all its data are told, and the queue is at rest.
pub fn a_queue_below_opens_and_rests()
    ensures opens { RestOpensBelow }
    ensures rests { DoneRestsBelow }
{}

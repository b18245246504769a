//! An endpoint with a stream, below a hub, at the events of the controller, whichever walk they are of.
ghost use Rattle.law_below_hubs.specs.HostEvents.{EventKeepsOutBehind, EventKeepsInBehind};
ghost use Rattle.law_below_hubs.specs.HostOpens.{OutOpens, InOpens, HeadOpensOut, HeadOpensIn, UnaskedLeavesOut, UnaskedLeavesIn};

/// Each event of the controller leaves host, hub and device of an OUT endpoint as they must stand, with the bytes known that it moved,
/// where a start-split of an interrupt endpoint finds nothing that was told; and of a bulk IN endpoint, unless it is a request that clears
/// the hub's buffers.
pub fn an_event_keeps_a_pipe_below()
    ensures outward { EventKeepsOutBehind }
    ensures inward { EventKeepsInBehind }
{}

/// They stand so where no hub has anything of the key and the device moved nothing, and then with a new queue head.
pub fn a_pipe_below_opens()
    ensures outward { OutOpens }
    ensures inward { InOpens }
    ensures outward_head { HeadOpensOut }
    ensures inward_head { HeadOpensIn }
{}

/// An event in which none asks the endpoint leaves hub and device as they must stand: before it is opened, and after it has left.
pub fn an_event_leaves_an_unasked_pipe()
    ensures outward { UnaskedLeavesOut }
    ensures inward { UnaskedLeavesIn }
{}

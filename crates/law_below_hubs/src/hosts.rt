//! The host of an endpoint with a stream, below a hub, its device, and what the hub has of their key.
ghost use Rattle.law_below_hubs.specs.HostIns.{OwnInGoesOn, OthersLeaveIn, BeginLeavesIn, RestedIsTimely, HaltedIsTimely};
ghost use Rattle.law_below_hubs.specs.HostIns.{ResultIsOver, InBegins};
ghost use Rattle.law_below_hubs.specs.HostOuts.{OwnOutGoesOn, OthersLeaveOut, BeginLeavesOut, UnworkedIsUntold, OutIsTaken};

/// Each transaction of the host of an OUT endpoint leaves all three as they must stand, with the bytes known that it moved; so does each of
/// another host, a request to clear the hub's buffers among them, and so does the work of the hubs where a microframe begins.
pub fn an_out_host_goes_on()
    ensures own { OwnOutGoesOn }
    ensures others { OthersLeaveOut }
    ensures begins { BeginLeavesOut }
{}

/// What a pipeline has of a key was told to no complete-split where no byte-time of it is worked.
pub fn an_unworked_entry_is_untold()
    ensures { UnworkedIsUntold }
{}

/// So it is of an IN endpoint, with the bytes that came; but where a request clears the hub's buffers, and for an interrupt endpoint
/// where a start-split finds what was told, or the last complete-split of a frame comes to a host that isn't in time, or to an answer
/// that is still to come.
pub fn an_in_host_goes_on()
    ensures own { OwnInGoesOn }
    ensures others { OthersLeaveIn }
    ensures begins { BeginLeavesIn }
{}

/// A host that doesn't wait is in time, and so is one that has halted.
pub fn a_host_that_rests_is_in_time()
    ensures rests { RestedIsTimely }
    ensures halts { HaltedIsTimely }
{}

/// No answer is to come of what a pipeline has of a key, once its result is there.
pub fn a_result_is_the_last_answer()
    ensures { ResultIsOver }
{}

/// What the device of such an OUT endpoint took begins with the bytes that the host knows, and goes on with no more than the packet on
/// its way; what came from an IN endpoint begins its packets.
pub fn what_moves_below_begins_the_stream()
    ensures outward { OutIsTaken }
    ensures inward { InBegins }
{}

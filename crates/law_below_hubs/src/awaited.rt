//! What the host of a bulk or control endpoint below a hub waits for is there, or comes, and is an answer that a device at full or low
//! speed may give: where the host hears each answer of the hub, and no request takes a key from it.
ghost use Rattle.law_below_hubs.specs.WorkedAwaited.{
  NoneAwaited,
  StartAwaited,
  ResultAwaited,
  UnstartedBreaks,
  RequestAwaited,
  OtherTokenBreaks,
};
ghost use Rattle.law_below_hubs.specs.Awaited.{AnswersSuit, OwnSplitsAreAwaited, OthersLeaveKey, BeginLeavesKey, EventKeepsAwaiting, UnaskedLeavesKey};

/// A device that is asked for a bulk or control endpoint behind an enabled port answers as one at full or low speed may, or isn't heard.
pub fn answers_below_suit()
    ensures { AnswersSuit }
{}

/// Each transaction of the host that is answered counts no error, and leaves what is awaited in the hub; so does each of another host, and
/// so does the work of the hubs where a microframe begins.
pub fn a_host_awaits_answers()
    ensures own { OwnSplitsAreAwaited }
    ensures others { OthersLeaveKey }
    ensures begins { BeginLeavesKey }
{}

/// So it stands after each event of the controller, at the queue head of the endpoint; and no key of an endpoint that none asks changes.
pub fn an_event_keeps_what_is_awaited()
    ensures met { EventKeepsAwaiting }
    ensures unasked { UnaskedLeavesKey }
{}

/// Before the first start of an OUT its host waits for nothing, and once it heard the ACK for what the hub has; of a hub that has nothing
/// of the key no answer is awaited.
pub fn an_out_host_waits()
    ensures none { NoneAwaited }
    ensures start { StartAwaited }
    ensures result { ResultAwaited }
    ensures breaks { UnstartedBreaks }
{}

/// The SETUP of a read is awaited in one direction and its data in the other, where the hub has them or their answer; and no OUT is awaited
/// where the hub has the SETUP.
pub fn a_request_is_awaited()
    ensures request { RequestAwaited }
    ensures breaks { OtherTokenBreaks }
{}

//! The laws.
ghost use Rattle.law_queues.specs.reached_rings.Reaching.{ReachedIsReached, IsReachedReached, ReachedHasQueueHead, AnswerReachesFewer, NarrowRing, NarrowDrives, EventNarrows, AnswerNarrows};

use usb_base::Wire;

/// What is computed from the driver's content is where a walk may go: each of these queue heads is the head's or that of an endpoint that wasn't given
/// back, and an answer of the doorbell makes them fewer.
pub fn reached_queue_heads()
    ensures computed { ReachedIsReached }
    ensures all { IsReachedReached }
    ensures stand { ReachedHasQueueHead }
    ensures fewer { AnswerReachesFewer }
{}

/// A ring that has all of them among its members is one that has exactly these, wherever the walk stands and whatever it has in hand.
pub fn a_ring_narrows()
    ensures ring { NarrowRing }
    ensures drives { NarrowDrives }
{}

/// And so is it after each event of the walk: once the doorbell is answered, those of the rung batch aren't members any more.
pub fn an_event_narrows<W: Wire>()
    ensures each { EventNarrows W.transacts }
    ensures answer { AnswerNarrows W.transacts }
{}

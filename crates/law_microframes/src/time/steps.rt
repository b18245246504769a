//! How many events one visit of the walk of the ring has (EHCI 1.0, 4.8, 4.10 and 4.10.3), told by the copy in hand.

ghost use Rattle.law_microframes.specs.time.VisitSteps.{RingEventsFall, RingFetchesBegin};

use usb_base::Wire;

/// In the ring each event with a queue head in hand leaves fewer events of the visit: a qTD that is taken, a transaction, its write-back; or the queue head is passed.
pub fn ring_events_fall<W: Wire>()
    ensures { RingEventsFall W.transacts }
{}

/// A queue head that was just fetched has at most three events more.
pub fn ring_fetches_begin<W: Wire>()
    ensures { RingFetchesBegin W.transacts }
{}

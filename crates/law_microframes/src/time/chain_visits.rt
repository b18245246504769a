//! How many events a visit of the walk of the frames has (EHCI 1.0, 4.6, 4.7.1, 4.10, 4.10.3 and 4.12), told by the copy in hand and the time that is left.
ghost use Rattle.law_microframes.specs.time.ChainEvents.{ChainVisitsFall, ChainFetchesBegin};

use usb_base::Wire;

/// With a copy in hand each event leaves fewer events of the visit, or takes the least price of a transaction or more; and no event leaves more time.
pub fn chain_visits_fall<W: Wire>()
    ensures { ChainVisitsFall W.transacts }
{}

/// A fetch leaves at most three events before the first transaction of its visit.
pub fn chain_fetches_begin<W: Wire>()
    ensures { ChainFetchesBegin W.transacts }
{}

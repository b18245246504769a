//! The laws.
ghost use Rattle.law_ring.specs.Halted.{WalkKeepsHalts, HaltedQueueStays, NoneBehindIsMoved, OneIsHalted};
ghost use Rattle.law_ring.specs.Halted.{HaltIsSpared, HaltIsRenumbered, StoreKeepsHalts, LendKeepsHalts, ReleaseKeepsHalts, FewerKeepHalts};

use usb_base::Wire;

/// Where a qTD that is out is halted, its queue head is, and those behind are published yet: each event of the walk leaves it so. It leaves all
/// structures of a queue head that is halted.
pub fn each_event_keeps_the_halt<W: Wire>()
    ensures halts { WalkKeepsHalts W.transacts }
    ensures stays { HaltedQueueStays W.transacts }
{}

/// Nothing was moved of a qTD behind a halted one, and all that are halted have one place in the order.
pub fn a_halt_stops_what_is_behind()
    ensures none { NoneBehindIsMoved }
    ensures one { OneIsHalted }
{}

/// A row of the driver that leaves the overlay and what is out leaves it so, as one that stores a qTD that isn't out,
/// lends a transfer behind, gives back blocks, or harvests.
pub fn a_row_spares_the_halt()
    ensures spared { HaltIsSpared }
    ensures renumbered { HaltIsRenumbered }
    ensures stored { StoreKeepsHalts }
    ensures lent { LendKeepsHalts }
    ensures released { ReleaseKeepsHalts }
    ensures fewer { FewerKeepHalts }
{}

//! What the driver's events leave of the ring (EHCI 1.0, 4.8.1 and 4.8.2): one store links a queue head, one store unlinks one, and every other event leaves the links of the queue
//! heads that the walk may reach.
ghost use Rattle.law_microframes.specs.time.RingSplices.{OpenStoreJoins, UnlinkStorePasses, EachRowLeavesReached, RowsLeaveLinks, CommandsLeaveRing};

/// The store of an open joins a queue head to the ring: it led to where the head of the ring did, and the head leads to it then.
pub fn open_store_joins()
    ensures { OpenStoreJoins }
{}

/// The store of a cancel leads past a queue head, which led to where the one before it leads then.
pub fn unlink_store_passes()
    ensures { UnlinkStorePasses }
{}

/// The walk may reach the same queue heads after each event of the driver, and each event but these stores leaves their links.
pub fn other_events_leave_the_ring()
    ensures reached { EachRowLeavesReached }
    ensures links { RowsLeaveLinks }
{}

/// .. and each command, accepted or refused, but that the queue head of an accepted open may be reached from then on: it leads to where the head of the ring does.
pub fn commands_leave_ring()
    ensures { CommandsLeaveRing }
{}

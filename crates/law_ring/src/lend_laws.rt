//! The laws.
ghost use Rattle.law_ring.specs.Together.{LendsLeaveRing};

/// Where qTDs and buffers of one queue head are lent together, wherever the walk is and whatever it has in hand, the ring goes on with all of them.
pub fn lends_leave_ring()
    ensures { LendsLeaveRing }
{}

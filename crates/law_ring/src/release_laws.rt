//! The laws.
ghost use Rattle.law_ring.specs.Fewer.{PartMayLose, ReturnsLeaveRing, FewerAreTold, FreedIsTold};

/// qTDs and buffers to which nothing that stays leads, and on which the overlay doesn't work, may go together, whether they are published or not.
pub fn structures_are_given_back_together()
    ensures part { PartMayLose }
    ensures ring { ReturnsLeaveRing }
{}

/// What stays is told of memory as before, and so it is once a run was given back of which it has no block.
pub fn what_stays_is_told()
    ensures fewer { FewerAreTold }
    ensures freed { FreedIsTold }
{}

//! The law.
ghost use Rattle.law_queues.specs.stalled_fronts.Stalled.{StallMovesFronts, StallStopsQueue, StallKeepsFronts, StallHaltsQueue};

/// At a STALL the front goes on to the end of the queue, and what is out behind the qTD that was halted is passed over.
pub fn stall_keeps_fronts()
    ensures { StallKeepsFronts }
{}

/// Where the queue stops at the qTD that was halted, those of its requests that are out yet wait.
pub fn stall_halts_queue()
    ensures { StallHaltsQueue }
{}

/// Both hold wherever the queue head stands, in the ring or in frames.
pub fn a_stall_in_any_queue()
    ensures fronts { StallMovesFronts }
    ensures halts { StallStopsQueue }
{}

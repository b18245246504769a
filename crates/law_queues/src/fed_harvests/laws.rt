//! The laws.
ghost use Rattle.law_queues.specs.fed_harvests.Harvests.{AlikeStands, UnstalledStands, HarvestStands, WaitStands};
ghost use Rattle.law_queues.specs.fed_harvests.Stalls.{StallStands};

/// Where no word is stored and no run is told otherwise, structures stand as before.
pub fn alike_stands()
    ensures { AlikeStands }
{}

/// A harvest takes the first qTD out that no short packet passed over, where it is done; else nothing changes.
pub fn a_harvest_takes_one_out()
    ensures unstalled { UnstalledStands }
    ensures done { HarvestStands }
    ensures waits { WaitStands }
{}

/// A STALL of a control endpoint takes the qTD out that was halted, and the first of each request behind it.
pub fn stall_stands()
    ensures { StallStands }
{}

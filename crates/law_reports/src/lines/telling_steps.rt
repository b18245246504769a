//! What is told of the queues stays at each step that the driver makes of one of them (EHCI 1.0, 3.5, 3.6, 4.6, 4.8 and 4.10).
ghost use Rattle.law_reports.specs.lines.TellingSteps.{StillTells, FrameTells, BellTells, StatusTells, NarrowTells, UnlinkTells, HarvestTells, ReturnTells, LendTells, StoreTells, MendTells, BeginTells, OpenTells, ReleaseTells};

/// An event that is none of a queue leaves it, and so does one of frames; and so do the doorbell, its answer, and the clear of Async
/// Advance (4.8.2).
pub fn quiet_steps_tell_the_same()
    ensures still { StillTells }
    ensures frames { FrameTells }
    ensures bell { BellTells }
    ensures status { StatusTells }
    ensures narrow { NarrowTells }
{}

/// So does the store by which a queue head leaves the ring (4.8.2).
pub fn unlink_tells()
    ensures { UnlinkTells }
{}

/// A harvest tells of one qTD more, or changes nothing (4.10).
pub fn harvest_tells()
    ensures { HarvestTells }
{}

/// The blocks of a transfer are given back once it was told (4.10).
pub fn return_tells()
    ensures { ReturnTells }
{}

/// A transfer is lent behind the others (4.10.2).
pub fn lend_tells()
    ensures { LendTells }
{}

/// Its first qTD is stored (3.5).
pub fn store_tells()
    ensures { StoreTells }
{}

/// A stalled queue head is made a store that it is owed (4.10.3).
pub fn mend_tells()
    ensures { MendTells }
{}

/// An endpoint is opened, in the ring or in the frames: its queue is lent, and told once it is linked (4.8.1).
pub fn an_open_tells_a_new_queue()
    ensures begins { BeginTells }
    ensures opens { OpenTells }
{}

/// An endpoint is given back: its last line has told all that was moved of its queue (4.8.2).
pub fn release_tells()
    ensures { ReleaseTells }
{}

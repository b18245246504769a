//! Harvests of control requests.
ghost use Rattle.law_reports.specs.requests.Reading.{ReadIsMoved, MovedIsRead, MovedBegin, MovedAreAll};
ghost use Rattle.law_reports.specs.requests.Ended.{HarvestReadsFirst, DoneEnds, HaltEnds};

/// Of a control request a driver tells the bytes that were moved of its data, and no others: they begin its data, and are all of them once it is done.
pub fn a_harvest_reads_what_was_moved()
    ensures read { ReadIsMoved }
    ensures goes_on { MovedIsRead }
    ensures begins { MovedBegin }
    ensures all { MovedAreAll }
{}

/// A harvest that finds a qTD of a control endpoint done reads the first request of its queue. Where that is done, the device acted on it exactly once; where it
/// halted, no request of the queue is asked any more. The lines tell of it with its bytes.
pub fn a_harvest_ends_a_request()
    ensures first { HarvestReadsFirst }
    ensures done { DoneEnds }
    ensures halts { HaltEnds }
{}

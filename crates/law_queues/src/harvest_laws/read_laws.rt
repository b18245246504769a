//! The row of a harvest where a driver has bulk and control endpoints, its transfers take turns and its queues are fed (EHCI 1.0, 4.10): what was moved of the
//! qTD of a bulk endpoint is told, and what is reported of its stream stays right; that of a control endpoint tells nothing of any stream.
ghost use Rattle.law_queues.specs.harvest_laws.ReadLaws.{HarvestRowIsTold, OtherHarvestIsTold, WaitIsTold};

/// The row of a harvest tells what was moved; one that isn't done is left.
pub fn the_row_of_a_harvest_is_told()
    ensures done { HarvestRowIsTold }
    ensures other { OtherHarvestIsTold }
    ensures active { WaitIsTold }
{}

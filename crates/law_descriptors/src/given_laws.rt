//! The laws.
ghost use Rattle.law_descriptors.specs.Given.{RowGivesBackPassed, ReleaseTold, ReleaseRunsBoth, WaitingTold, WaitingRunsBoth, EndpointLeavesRecent};

/// A row that gives back what was unlinked comes next only once two readings of FRINDEX since then had different frame numbers (2.3.4).
pub fn row_gives_back_passed()
    ensures { RowGivesBackPassed }
{}

/// A descriptor is given back with its buffer: memory has all else that it had for the driver, and both walks go on, wherever they are and whatever they have
/// in hand (4.6).
pub fn a_descriptor_is_given_back()
    ensures told { ReleaseTold }
    ensures both { ReleaseRunsBoth }
{}

/// So it is where an isochronous endpoint is given back: with it go the descriptors that wait there, and their buffers.
pub fn an_isochronous_endpoint_is_given_back()
    ensures told { WaitingTold }
    ensures both { WaitingRunsBoth }
{}

/// What is recent stays recent where an endpoint is given back, whether it has a queue head or descriptors: it was removed first and once, and no recent one was
/// removed with it.
pub fn endpoint_leaves_recent()
    ensures { EndpointLeavesRecent }
{}

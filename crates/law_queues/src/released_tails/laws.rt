//! The law.
ghost use Rattle.law_queues.specs.released_tails.Tails.{ReleaseKeepsReaches};

/// The row that gives a harvested transfer's blocks back leaves the front and the tail of each queue where they are.
pub fn release_keeps_reaches()
    ensures { ReleaseKeepsReaches }
{}

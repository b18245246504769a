//! The laws.
ghost use Rattle.law_queues.specs.released_queues.Released.{ReleaseFeeds, ReleaseKeepsMet};
ghost use Rattle.law_queues.specs.released_queues.Staying.{ReleaseStays};

/// The row that gives a harvested transfer's blocks back leaves the queues of the driver as fed as they were, and changes nothing that is told of its
/// streams.
pub fn a_release_leaves_queues_fed()
    ensures feeds { ReleaseFeeds }
    ensures met { ReleaseKeepsMet }
{}

/// It does so wherever the queue head stands, in the ring or in frames: nothing that stays leads to what goes, so each queue stays sound, and keeps its front.
pub fn release_stays()
    ensures { ReleaseStays }
{}

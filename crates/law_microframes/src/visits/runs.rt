//! What the run of each script keeps of the visits of both walks, whatever endpoints it opens and cancels (EHCI 1.0, 4.4, 4.6 to 4.10, 4.10.3 and 4.12).
ghost use Rattle.law_microframes.specs.visits.Keeps.{TextsKeepVisits};

/// In one microframe the walk of the frames visits no structure twice, and each in its frame, and leaves none out; a microframe in which
/// the bus may not be used has no time; the asynchronous part ends and queue heads are passed for the standard's reasons alone, in the ring
/// and in the frames; and after an end by time the ring goes on at the same queue head.
pub fn texts_keep_visits()
    ensures { TextsKeepVisits }
{}

//! What is due of isochronous transfer descriptors as their microframe begins is done in it (EHCI 1.0, 3.1, 3.3.2, 4.4, 4.6 and 4.7.1).
ghost use Rattle.law_reports.specs.due_at_begin.Laws.{TextsDoSlotsAtBegin};

/// Where the walk of the frames is over in a microframe that isn't held, each iTD that was linked in the frame as the microframe began,
/// with the slot of the microframe active then, was written back in it, unless its endpoint was cancelled since: the walk comes to it,
/// nobody unlinks it and nobody clears the slot before, whatever the walk comes to before, and whatever the driver does. So it is of a
/// cancelled endpoint's, while it stays linked nevertheless.
pub fn texts_do_slots_at_begin()
    ensures { TextsDoSlotsAtBegin }
{}

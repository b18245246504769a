//! In one microframe the walk of the frames leaves out no structure that was linked in its frame as the microframe began and is linked
//! there still, also while members are linked and unlinked (EHCI 1.0, 4.4, 4.6, 4.7, 4.10 and 4.12).
ghost use Rattle.law_microframes.specs.visits.Coverage.{ChainIsStanding, TextsVisitEach};

/// What the words of memory link in a frame is a member of the driver's to which a word may lead, it stands in that frame, and no store was
/// made that unlinks it there.
pub fn chain_is_standing()
    ensures { ChainIsStanding }
{}

/// At each moment of each script that a text spells: where the walk of the frames is over, each structure to which the links led from the
/// element of the frame as the microframe began, and to which they lead still, was visited.
pub fn texts_visit_each()
    ensures { TextsVisitEach }
{}

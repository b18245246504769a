//! What is due of split isochronous transfer descriptors as their microframe begins is done in it (EHCI 1.0, 3.1, 3.4, 4.4, 4.6 and
//! 4.12.3).
ghost use Rattle.law_reports.specs.due_at_begin.Laws.{TextsServeSitdsAtBegin};

/// Where the walk of the frames is over in a microframe that isn't held, each siTD that was linked in the frame as the microframe began,
/// with a transaction to come in this microframe by its words then, had that transaction and was written back after it, unless its endpoint
/// was cancelled since: the walk comes to it, nobody unlinks it, and nobody stores its words but for the link, whatever the walk comes to
/// before, and whatever the driver does. So it is of a cancelled endpoint's, while it stays linked nevertheless.
pub fn texts_serve_sitds_at_begin()
    ensures { TextsServeSitdsAtBegin }
{}

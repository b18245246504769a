//! In one microframe the walk of the frames visits each structure at most once, also while members are linked and unlinked (EHCI 1.0, 4.6, 4.7, 4.10 and 4.12).
ghost use Rattle.law_microframes.specs.visits.VisitLaws.{VisitsMeetNow, NewIsVisiting, ControllerKeepsVisiting};

/// Those whose links lead down may be taken to be such that each may be met.
pub fn visits_meet_now()
    ensures { VisitsMeetNow }
{}

/// Before the first line of a script nothing was visited.
pub fn new_is_visiting()
    ensures { NewIsVisiting }
{}

/// Each event of the controller goes on with the visits.
pub fn controller_keeps_visiting()
    ensures { ControllerKeepsVisiting }
{}

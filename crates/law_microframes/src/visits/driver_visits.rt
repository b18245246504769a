//! What the driver leaves of the visits of a microframe (EHCI 1.0, 4.6, 4.7 and 4.12): they go on with each of its events, and with each command.
ghost use Rattle.law_microframes.specs.visits.DriverVisitLaws.{EachRowKeepsVisiting, CommandLeavesVisits};
ghost use Rattle.law_microframes.specs.visits.VisitLaws.{DriverKeepsVisiting, CommandKeepsVisiting, ScriptsVisit, TextsVisitEachOnce};

/// The visits go on with each event of the driver, whichever row it is: also where it links or unlinks a member by one store after another.
pub fn each_row_keeps_visiting()
    ensures { EachRowKeepsVisiting }
{}

/// .. and with each command, accepted or refused.
pub fn command_leaves_visits()
    ensures { CommandLeavesVisits }
{}

/// So nothing of the world is out of place, and the visits go on.
pub fn the_driver_keeps_visiting()
    ensures driver { DriverKeepsVisiting }
    ensures commands { CommandKeepsVisiting }
{}

/// So it is at each moment of the run of a script, and in one microframe the walk of the frames visits each structure at most once, in each script that a text spells.
pub fn no_structure_is_visited_twice()
    ensures scripts { ScriptsVisit }
    ensures texts { TextsVisitEachOnce }
{}

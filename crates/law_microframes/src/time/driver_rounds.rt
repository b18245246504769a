//! What the driver leaves of a round of the ring (EHCI 1.0, 4.8, 4.8.1 and 4.8.2): it goes on with each of its events, and with each command.
ghost use Rattle.law_microframes.specs.time.RoundLaws.{EachRowKeepsRounds, CommandLeavesRounds, DriverKeepsRounds, CommandKeepsRounds, ScriptsRoundOnce, TextsRoundOnce};

/// A round goes on with each event of the driver, whichever row it is: also where a store links a queue head, or unlinks one.
pub fn each_row_keeps_rounds()
    ensures { EachRowKeepsRounds }
{}

/// .. and with each command, accepted or refused.
pub fn command_leaves_rounds()
    ensures { CommandLeavesRounds }
{}

/// So nothing of the world is out of place, and the round goes on.
pub fn the_driver_keeps_the_round()
    ensures driver { DriverKeepsRounds }
    ensures commands { CommandKeepsRounds }
{}

/// So it is at each moment of the run of a script: in one round of the ring no queue head is visited twice, in each script that a text spells.
pub fn no_queue_head_is_visited_twice()
    ensures scripts { ScriptsRoundOnce }
    ensures texts { TextsRoundOnce }
{}

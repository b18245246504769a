//! Between two visits to the head of the ring each queue head is visited at most once, while queue heads are linked and unlinked (EHCI 1.0, 4.8, 4.8.1, 4.8.2 and 4.8.3).
ghost use Rattle.law_microframes.specs.time.RoundLaws.{NewIsRounding, ControllerKeepsRounds};

/// Before the first line of a script nothing was visited.
pub fn new_is_rounding()
    ensures { NewIsRounding }
{}

/// Each event of the controller goes on with the round.
pub fn controller_keeps_rounds()
    ensures { ControllerKeepsRounds }
{}

//! Worked rows of resting: a driver with a bulk endpoint, and a get of it.
ghost use Rattle.law_resting.specs.Turns.{WaitingIsNoTurn};
ghost use Rattle.law_resting.specs.Worked.{NewDriverMayRest, KeepingIsNoRest, LeavingUnreadIsNoRest, HoldingOnIsNoRest, WaitsMayRest, LinkingIsNoRest};

/// A driver that was just built may rest, and so may one whose get was told and given back.
pub fn drivers_with_nothing_to_do_may_rest()
    ensures new { NewDriverMayRest }
    ensures done { WaitsMayRest }
{}

/// A driver whose endpoint was cancelled and isn't given back may not.
pub fn resting_is_broken_by_never_releasing()
    ensures endpoint { KeepingIsNoRest }
    ensures transfer { HoldingOnIsNoRest }
{}

/// Nor may one whose get has no line.
pub fn resting_is_broken_by_never_harvesting()
    ensures { LeavingUnreadIsNoRest }
{}

/// Nor one with an unfinished command, though no store of the frame list is left.
pub fn resting_is_broken_by_an_unfinished_command()
    ensures { LinkingIsNoRest }
{}

/// Nor does one that keeps blocks that it can give back.
pub fn turns_are_broken_by_waiting()
    ensures { WaitingIsNoTurn }
{}

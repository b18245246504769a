//! What left the ring or the frame list is given back only after the controller has shown that it let go of it (EHCI 1.0, 2.3.2, 2.3.4, 4.6 and 4.8.2).
ghost use Rattle.law_world.specs.memory.Releases.{ScriptsGiveBackLast, KeptToLentStaysUntouched, ScriptsLeaveWhatIsBack};

/// Of every script: an endpoint of the ring is given back after the answer of a doorbell that was rung since it left, and what left the frame list after two
/// readings of FRINDEX since then whose frame numbers differ.
pub fn scripts_give_back_last()
    ensures { ScriptsGiveBackLast }
{}

/// What was given back each later event of the controller leaves alone until it is lent again: it writes none of it, and whatever stands
/// there, it leaves the same.
pub fn what_is_given_back_stays_untouched()
    ensures law { KeptToLentStaysUntouched }
    ensures scripts { ScriptsLeaveWhatIsBack }
{}

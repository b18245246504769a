//! Whom either walk asks next, in a world with endpoints of every kind (EHCI 1.0, 4.6, 4.8 and 4.10).
ghost use Rattle.law_microframes.specs.visits.AskedHeads.{AskedIsNear};

/// A copy in hand that works is one of a queue head that has its queue, or will be given back: one that is being opened rests.
pub fn asked_is_near()
    ensures { AskedIsNear }
{}

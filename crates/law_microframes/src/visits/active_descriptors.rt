//! Isochronous descriptors of which something is active (EHCI 1.0, 3.3, 3.4, 4.6, 4.7 and 4.12.3): each stands in its frame alone, and so they are for the frame in which the
//! walk comes to them.
ghost use Rattle.law_microframes.specs.visits.ActiveFrames.{QueueIsNotActive, ScheduledIsAlone, NextIsInFrame, AloneIsInFrame, VisitsGoOnInFrame, ScriptsGoOnInFrame};
ghost use Rattle.law_microframes.specs.visits.Began.{ActiveStands, ActiveIsMet, ActiveIsFramed, MetIsLent};

/// A descriptor of which something is active, and that stands, stands in its frame alone.
pub fn active_stands()
    ensures { ActiveStands }
{}

/// Where one may be met, it stands so, or it waits at an endpoint that was cancelled, and was unlinked in this microframe.
pub fn active_is_met()
    ensures { ActiveIsMet }
{}

/// Its frame was chosen.
pub fn active_is_framed()
    ensures { ActiveIsFramed }
{}

/// A descriptor that is met is lent to the controller.
pub fn met_is_lent()
    ensures { MetIsLent }
{}

/// No descriptor begins where a queue head stands.
pub fn queue_is_not_active()
    ensures { QueueIsNotActive }
{}

/// One to which the walk goes on is for the frame of the microframe, or it waits at an endpoint that was cancelled, and was unlinked in this microframe.
pub fn next_is_in_frame()
    ensures { NextIsInFrame }
{}

/// So a member of the frame list stands in no other frame than that of its descriptor, while something of it is active.
pub fn scheduled_is_alone()
    ensures { ScheduledIsAlone }
{}

/// So one to which the walk goes on is for the frame of the microframe, also after it was unlinked.
pub fn alone_is_in_frame()
    ensures { AloneIsInFrame }
{}

/// Where the visits go on so, each to which the walk goes on is for the frame of the microframe, whether it stands or was unlinked in it.
pub fn visits_go_on_in_frame()
    ensures { VisitsGoOnInFrame }
{}

/// So it is at each moment of the run of a script.
pub fn scripts_go_on_in_frame()
    ensures { ScriptsGoOnInFrame }
{}

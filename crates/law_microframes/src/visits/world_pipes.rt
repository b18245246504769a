//! Both sides of the pipes at high speed over an event of the controller, in a world with endpoints of every kind (EHCI 1.0, 4.6 to 4.11).
ghost use Rattle.law_microframes.specs.visits.WorldPipes.{ControllerKeepsPipes};

/// Each event of the controller keeps both sides of each pipe, with the packets that it moved.
pub fn controller_keeps_pipes()
    ensures { ControllerKeepsPipes }
{}

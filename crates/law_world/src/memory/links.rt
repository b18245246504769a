//! Where the links of structures lead (EHCI 1.0, 3.1, 3.6.1, 4.6, 4.8 and 4.8.2), at each moment of each script that a text spells.
ghost use Rattle.law_world.specs.memory.Links.{MixedHoldsLinks, TextsKeepLinks, TextsLeaveFramesLeading};
ghost use Rattle.law_world.specs.memory.Links.{DriverKeepsCleared, CommandKeepsCleared, ControllerKeepsCleared};
ghost use Rattle.law_world.specs.memory.Aside.{DriverLeavesAside, DriverLeavesLent, CommandLeavesAside, ControllerLeavesAside};

/// In a mixed world the links of live structures lead to live ones, and those of queue heads that left the ring to such, or to ones that
/// left later.
pub fn mixed_holds_links()
    ensures { MixedHoldsLinks }
{}

/// So it is at each moment of each script that a text spells; and while the doorbell is pending, and until its Async Advance is cleared,
/// one batch is rung, all of which left the ring before.
pub fn texts_keep_links()
    ensures { TextsKeepLinks }
{}

/// An event of the driver leaves the link of a structure that stands aside, and that it is Lent, until it is given back.
pub fn driver_leaves_aside()
    ensures link { DriverLeavesAside }
    ensures lent { DriverLeavesLent }
{}

/// So does a command.
pub fn command_leaves_aside()
    ensures { CommandLeavesAside }
{}

/// No event of the controller writes the link of a structure that is told.
pub fn controller_leaves_aside()
    ensures { ControllerLeavesAside }
{}

/// Each event keeps it that queue heads for which Async Advance was cleared lead to live ones, or to ones that left later, until they are
/// given back.
pub fn cleared_queues_lead_on()
    ensures driver { DriverKeepsCleared }
    ensures command { CommandKeepsCleared }
    ensures controller { ControllerKeepsCleared }
{}

/// At each moment of each script that a text spells, the link of a queue head or of an isochronous descriptor that left the frame list
/// leads to the end of a frame, to a member that is live, or to one that left later, until its endpoint, or its transfer, is given back.
pub fn texts_leave_frames_leading()
    ensures { TextsLeaveFramesLeading }
{}

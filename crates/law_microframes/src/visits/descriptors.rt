//! Of one isochronous endpoint at most one descriptor of a frame has something active (EHCI 1.0, 3.3, 3.4, 4.6, 4.7 and 4.12.3), whatever is harvested, unlinked and
//! linked in the microframe. Another one that the walk meets in the frame was harvested before, so no transaction is made for it.
ghost use Rattle.law_microframes.specs.visits.OneDescriptor.{OneDescriptorEach, MetIsActive, MetSplitIsActive, NewHasOneActive, ControllerKeepsOneActive, DriverKeepsOneActive, CommandKeepsOneActive, ControllerStartsNone, DriverStartsNone, CommandStartsNew, EachMomentHasOneActive};

/// Two of one endpoint and one frame, of which something is active, are the same.
pub fn one_descriptor_each()
    ensures { OneDescriptorEach }
{}

/// An iTD in memory that has an active slot is a descriptor of a transfer that wasn't given back (3.3.2).
pub fn met_is_active()
    ensures { MetIsActive }
{}

/// So is a siTD that is active (3.4.3).
pub fn met_split_is_active()
    ensures { MetSplitIsActive }
{}

/// An event of the controller sets none active.
pub fn controller_keeps_one_active()
    ensures { ControllerKeepsOneActive }
{}

/// An event of the driver sets none active that was harvested before: each store goes to another run, or to the link of a descriptor, which is its first word.
pub fn driver_keeps_one_active()
    ensures { DriverKeepsOneActive }
{}

/// A new world has no descriptor.
pub fn new_has_one_active()
    ensures { NewHasOneActive }
{}

/// Nor does a command, refused or accepted: descriptors that are taken on have their frames later, and what an accepted one writes goes to runs that were taken for it.
pub fn command_keeps_one_active()
    ensures { CommandKeepsOneActive }
{}

/// So of each script, at each moment of its run, an endpoint and a frame have at most one active descriptor.
pub fn each_moment_has_one_active()
    ensures { EachMomentHasOneActive }
{}

/// What is active after an event of the controller was active before.
pub fn controller_starts_none()
    ensures { ControllerStartsNone }
{}

/// So it is after an event of the driver; and it is in the same frame, if it had one.
pub fn driver_starts_none()
    ensures { DriverStartsNone }
{}

/// After a command it was, or it is newer than all transfers that there were.
pub fn command_starts_new()
    ensures { CommandStartsNew }
{}

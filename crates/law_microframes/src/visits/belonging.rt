//! To whom the structures belong that the walk of the frames may meet (EHCI 1.0, 3.3, 3.6, 4.6, 4.7 and 4.12; USB 2.0, 5.11.3).
ghost use Rattle.law_microframes.specs.visits.Belonging.{QueueBelongs, HeadIsRead, NamesAreApart, NewHeadsHaveFields, ControllerKeepsFields, DriverKeepsFields, CommandKeepsFields, ScriptsKeepFields, DescriptorBelongs, DriverKeepsPlaced, CommandKeepsPlaced, QueueStays};

/// In a mixed world each queue head that the walk of the frames may meet is that of an interrupt endpoint which wasn't given back, and whose placement is in the plan.
pub fn queue_belongs()
    ensures { QueueBelongs }
{}

/// What is read there has the fields of that endpoint, as it is placed, where these stand in memory (3.6.2); and no two queue heads belong to one endpoint.
pub fn a_queue_head_that_is_read_is_that_of_its_endpoint()
    ensures read { HeadIsRead }
    ensures apart { NamesAreApart }
{}

/// The fields stand for the queue head of each interrupt endpoint that wasn't given back (3.6.2): before the first line there is none, and each event of the controller and
/// of the driver and each command, refused or accepted, leaves them so.
pub fn the_fields_of_queue_heads_stand()
    ensures new { NewHeadsHaveFields }
    ensures controller { ControllerKeepsFields }
    ensures driver { DriverKeepsFields }
    ensures commands { CommandKeepsFields }
{}

/// So they stand at each moment of each script that fits.
pub fn scripts_keep_fields()
    ensures { ScriptsKeepFields }
{}

/// Each descriptor that it may meet is one of an isochronous endpoint whose placement is in the plan, and waits for its harvest; or it was harvested.
pub fn descriptor_belongs()
    ensures { DescriptorBelongs }
{}

/// No event of the driver takes the placement of an endpoint out of the plan to which belongs what the walk of the frames may meet, and no command takes one out.
pub fn the_plan_keeps_whose_structures_are_met()
    ensures driver { DriverKeepsPlaced }
    ensures commands { CommandKeepsPlaced }
    ensures queues { QueueStays }
{}

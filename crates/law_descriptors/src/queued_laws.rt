//! The laws of what a command with descriptors links next.
ghost use Rattle.law_descriptors.specs.Queued.{NewDriverLinksQueued, EventsLinkQueued, CommandsLinkQueued, DescriptorsComeFirst, LeavingComeFirst};

/// A driver that was just built has no command.
pub fn new_driver_links_queued()
    ensures { NewDriverLinksQueued }
{}

/// Each event of the driver leaves it so: the next of the command's queued descriptors is begun once its own events were made, and then after each last store.
pub fn events_link_queued()
    ensures { EventsLinkQueued }
{}

/// No command is accepted while members are linked, so nothing is begun yet.
pub fn commands_link_queued()
    ensures { CommandsLinkQueued }
{}

/// So what a command with descriptors links next is lent, none of the ring is there, it isn't recent, and it has its structure; and of a command that unlinks
/// members nothing is asked.
pub fn descriptors_come_first()
    ensures links { DescriptorsComeFirst }
    ensures unlinks { LeavingComeFirst }
{}

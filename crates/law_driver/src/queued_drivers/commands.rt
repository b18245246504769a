//! What accepted commands make of the queues of a driver of any kinds of endpoints (EHCI 1.0, 4.6 to 4.8 and 4.10; USB 2.0, 5.5 to 5.8).
ghost use Rattle.law_driver.specs.queued_drivers.Commands.{CommandsAreOfQueues, OpensAreOfQueues, ChainsAreOfQueues, TransfersAreOfQueues, CommandsKeepQueues};

/// The driver of the queues alone accepts the command too and stands alike: an endpoint with a queue is opened in the ring, and leaves it, and its gets, puts and
/// requests are taken on as they are. Isochronous endpoints and their descriptors come as ones that were given back.
pub fn commands_are_of_queues()
    ensures { CommandsAreOfQueues }
{}

/// The same of what is known to be an open in the ring, an open in frames, or a transfer, in which the same is asked then.
pub fn opens_and_transfers_are_of_queues()
    ensures ring { OpensAreOfQueues }
    ensures frames { ChainsAreOfQueues }
    ensures transfers { TransfersAreOfQueues }
{}

/// So each command that opens what has the way of its kind, or is no open, leaves the queues in turn, where it is accepted.
pub fn commands_keep_queues()
    ensures { CommandsKeepQueues }
{}

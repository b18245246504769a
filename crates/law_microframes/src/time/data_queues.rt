//! The qTDs of interrupt endpoints are those of INs and OUTs (EHCI 1.0, 3.5.3, 3.6 and 4.10; USB 2.0, 5.7 and 8.5.3).
ghost use Rattle.law_microframes.specs.time.DataQueues.{NewQueuesSendData, ControllerKeepsData, DriverKeepsData, CommandKeepsData, ScriptsSendData, HeadsSendData, CopiesSendData, TakesSendData, MixedWorldsReadData, ScriptsReadData};

/// There are none before the first line, and an event of the controller leaves them so: it ends a qTD, and makes none active (4.10.4).
pub fn the_controller_leaves_queues_of_data()
    ensures new { NewQueuesSendData }
    ensures controller { ControllerKeepsData }
{}

/// So does an event of the driver: what it stores in a qTD is that of a get or a put.
pub fn driver_keeps_data()
    ensures { DriverKeepsData }
{}

/// So does each command, refused or accepted: an interrupt endpoint takes no request.
pub fn command_keeps_data()
    ensures { CommandKeepsData }
{}

/// So they are at each moment of each script that fits.
pub fn scripts_send_data()
    ensures { ScriptsSendData }
{}

/// While the overlay of a queue head that the walk of the frames may meet is active, its PID code is that of its endpoint's way, an IN's or
/// an OUT's; so is that of the copy in hand, and that of a qTD that the walk takes (3.6.3, 4.10.2).
pub fn the_walk_of_the_frames_reads_data()
    ensures heads { HeadsSendData }
    ensures copies { CopiesSendData }
    ensures takes { TakesSendData }
{}

/// So it is of the queue head of each interrupt endpoint that wasn't given back, whether it is linked yet or not, and of all that the walk reads of it, at each moment of each script that
/// fits.
pub fn each_moment_reads_data()
    ensures mixed { MixedWorldsReadData }
    ensures scripts { ScriptsReadData }
{}

//! What is never told of endpoints at high speed (EHCI 1.0, 3.5.3, 4.10.3 and 4.12.2; USB 2.0, 8.5 and 8.6): a missed microframe is that
//! of a split transaction, and the count of errors falls only where an answer counts one; where every packet on the high-speed bus gets
//! through, none does.
ghost use Rattle.law_reports.specs.quiet.Laws.{
  AnswersCountNone,
  DriverLeavesErrors,
  NewWorldMissesNone,
  ControllerMissesNone,
  DriverMissesNone,
  CommandMissesNone,
  ScriptsMissNone,
  TextsMissNone,
  TextsMissBelow,
};
ghost use Rattle.law_reports.specs.quiet.HeardLaws.{
  AskKeepsHeard,
  BeginKeepsHeard,
  OpeningIsHeard,
  ControllerKeepsHeard,
  DriverKeepsHeard,
  TextsAreHeard,
  TextsFailBelow,
};
ghost use Rattle.law_reports.specs.quiet.AwaitingLaws.{HaveHubs, TextsHaveHubs, TextsOpenAwaited, TextsAreAwaited, TextsSpareBuffered};
ghost use Rattle.claims_world.specs.Misses.{MissesAreBelow};
ghost use Rattle.claims_world.specs.Quiet.{IsHeardAbove, ErrorsAreBelow, LeavesBuffers, ErrorsAreOfInterrupts};
ghost use Rattle.law_reports.specs.quiet.SparedSamples.{clears_buffer, stick, asker};
ghost use Rattle.law_opened.specs.Samples.{beside_split};
ghost use Rattle.law_reports.specs.quiet.HubSamples.{lacks_hub};
ghost use Rattle.law_reports.specs.quiet.HeardSamples.{lost_below, lost_above, answers_nyet, told_of};
ghost use Rattle.law_reports.specs.quiet.Samples.{missed_of};
ghost use Rattle.law_world.specs.memory.Samples.{keyboard, disk};

/// A transaction of a high-speed endpoint that its device answers as its kind may leaves CERR as it was, and none sets Missed Micro-Frame.
pub fn answers_count_none()
    ensures { AnswersCountNone }
{}

/// What the driver writes has three errors to come, and tells no missed microframe; what it leaves and gives back stays so.
pub fn driver_leaves_errors()
    ensures { DriverLeavesErrors }
{}

/// No token of a queue at high speed tells a missed microframe, in memory, in the hand of either walk, or to be stored, after each event
/// and each command.
pub fn an_event_misses_none()
    ensures controller { ControllerMissesNone }
    ensures driver { DriverMissesNone }
    ensures command { CommandMissesNone }
{}

/// So it is at each moment of each script.
pub fn each_moment_misses_none()
    ensures opening { NewWorldMissesNone }
    ensures scripts { ScriptsMissNone }
    ensures texts { TextsMissNone }
{}

/// So each line that tells a missed microframe is of an endpoint below a hub, whatever the script loses, holds and asks.
pub fn texts_miss_below()
    ensures { TextsMissBelow }
{}

/// A keyboard below a hub may miss one.
pub fn a_keyboard_may_miss()
    ensures { MissesAreBelow (missed_of keyboard) }
{}

/// A disk at high speed never does: its line would break the law.
pub fn a_disk_never_misses()
    ensures { MissesAreBelow (missed_of disk) → ⊥ }
{}

/// What is known of the bus of a script whose packets there all get through stands before the first line, and after each transaction and
/// each beginning of a microframe: devices, hubs and endpoints stand where they stood.
pub fn a_bus_stays_heard()
    ensures opening { OpeningIsHeard }
    ensures ask { AskKeepsHeard }
    ensures begin { BeginKeepsHeard }
{}

/// Each event leaves errors to the queues of all endpoints at high speed: each transaction of one is heard by its device, and answered as
/// its kind may.
pub fn an_event_stays_heard()
    ensures controller { ControllerKeepsHeard }
    ensures driver { DriverKeepsHeard }
{}

/// So it is at each moment of each script whose packets on the high-speed bus all get through, whatever else it opens, cancels and asks.
pub fn texts_are_heard()
    ensures { TextsAreHeard }
{}

/// So each line that tells a halt by errors is of an endpoint below a hub.
pub fn texts_fail_below()
    ensures { TextsFailBelow }
{}

/// A packet that is lost below a hub is none of the high-speed bus.
pub fn a_loss_below_is_none_above()
    ensures { IsHeardAbove lost_below }
{}

/// One that is lost above, or a NYET of an interrupt endpoint there, breaks the premise.
pub fn a_loss_above_breaks_it()
    ensures lost { IsHeardAbove lost_above → ⊥ }
    ensures nyet { IsHeardAbove answers_nyet → ⊥ }
{}

/// A keyboard below a hub may use up its errors, and a disk at high speed would break the law.
pub fn a_keyboard_may_fail()
    ensures keyboard { ErrorsAreBelow (told_of keyboard) }
    ensures disk { ErrorsAreBelow (told_of disk) → ⊥ }
{}

/// Host and hub of each bulk or control endpoint below a hub stand as they must at each moment of each script whose packets on the
/// high-speed bus all get through, and none of whose requests takes a key from a hub.
pub fn texts_are_awaited()
    ensures { TextsAreAwaited }
{}

/// Each endpoint that a text opens on a device that isn't at high speed is behind a port of a hub of the script.
pub fn texts_have_hubs()
    ensures { TextsHaveHubs }
{}

/// A keyboard at a port of a hub of its script has it; without the hub it has none.
pub fn a_hub_is_named()
    ensures named { HaveHubs beside_split }
    ensures unnamed { HaveHubs lacks_hub → ⊥ }
{}

/// Before the first line each bulk or control endpoint that a text opens below a hub has its hub and its end, and nothing is awaited of it.
pub fn texts_open_awaited()
    ensures { TextsOpenAwaited }
{}

/// So each line that tells a halt by errors is of an interrupt endpoint below a hub.
pub fn texts_spare_buffered()
    ensures { TextsSpareBuffered }
{}

/// Lines that ask nothing of a hub leave its buffers.
pub fn lines_may_leave_buffers()
    ensures { LeavesBuffers lost_below }
{}

/// A line that asks for a buffer to be cleared breaks the premise.
pub fn a_cleared_buffer_breaks_it()
    ensures { LeavesBuffers clears_buffer → ⊥ }
{}

/// A keyboard below a hub may use up its errors, and a stick with a bulk or control endpoint there would break the law.
pub fn a_stick_never_fails()
    ensures keyboard { ErrorsAreOfInterrupts (told_of keyboard) }
    ensures stick { ErrorsAreOfInterrupts (told_of stick) → ⊥ }
    ensures asker { ErrorsAreOfInterrupts (told_of asker) → ⊥ }
{}

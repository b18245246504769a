//! Control endpoints below hubs, in a world with endpoints of every kind (EHCI 1.0, 4.4 to 4.12; USB 2.0, 8.5.3, 11.17 and 11.18).
ghost use Rattle.law_reports.specs.requests.below.Controlled.{MovesAreRecorded, ControllerKeepsQueueBelow, ControllerKeepsRestBelow};
ghost use Rattle.law_reports.specs.requests.below.Controlled.{ControllerKeepsLeftBelow, UnsentActsNothing};
ghost use Rattle.law_reports.specs.requests.below.Going.{ControllerKeepsCourseBelow};
ghost use Rattle.law_reports.specs.requests.below.GoingSamples as shown;
ghost use Rattle.law_reports.specs.requests.below.Hubs.{IsBehindHub, TextsKeepHubs, TextsSpareHubs};
ghost use Rattle.law_reports.specs.requests.below.Moved.{MovesKeepCourseBelow};
ghost use Rattle.law_reports.specs.requests.below.MovedSamples as moved;
ghost use Rattle.law_reports.specs.requests.below.Opened.{OwnTransactionOpens};
ghost use Rattle.law_reports.specs.requests.below.Recorded.{AskedIsRecordedBelow, RestIsRecordedBelow, LeftIsRecordedBelow};
ghost use Rattle.law_reports.specs.requests.below.Samples.{zero, StartsSpared};
ghost use Rattle.law_reports.specs.pipes.hub_setups.Samples.{asked};
ghost use Rattle.claims_world.specs.BelowStreams.{LeavesTranslator};
ghost use Rattle.hub_class.specs.Worked.{set_reset, clear_first};
ghost use Rattle.std.specs.Prelude.{Some};

/// Where its hub hasn't heard last to clear a buffer or reset a translator, each event of the controller leaves a control endpoint below it
/// as it must stand: while its requests are asked, between two of them, and after errors ended one, when its device may still act on that
/// one.
pub fn the_controller_keeps_control_endpoints_below()
    ensures queue { ControllerKeepsQueueBelow }
    ensures rest { ControllerKeepsRestBelow }
    ensures left { ControllerKeepsLeftBelow }
{}

/// The SETUP of its request under way opens the window of that one, and each later transaction finds it open.
pub fn own_transactions_open_their_window()
    ensures { OwnTransactionOpens }
{}

/// Before a SETUP is sent its device acts on nothing.
pub fn nothing_is_acted_on_before_a_setup_below()
    ensures { UnsentActsNothing }
{}

/// Whichever way its queue moves at an event of the driver or a command, host, hub and device stand as they must again: a request that is
/// published opens its window or waits, one that is done was acted on once, and a queue head that is halted leaves the hub at rest, but
/// where errors ended the endpoint.
pub fn a_queue_below_moves()
    ensures { MovesKeepCourseBelow }
{}

/// So it is where the first request of an endpoint is published; not where its device had acted on it before.
pub fn a_first_request_below_is_published()
    ensures before { moved.Before }
    ensures moves { moved.Moves }
    ensures so { moved.MovedSo }
    ensures after { moved.After }
    ensures acted { moved.ActedBreaks }
{}

/// What its device acts on in an event is what a run records of its stages before and after it.
pub fn what_a_device_acts_on_is_recorded()
    ensures { MovesAreRecorded }
{}

/// So it is recorded in the window of the request under way, or of the one that errors ended; those before it were acted on once, and
/// those behind it weren't.
pub fn what_is_acted_on_below_is_of_its_window()
    ensures asked { AskedIsRecordedBelow }
    ensures rest { RestIsRecordedBelow }
    ensures left { LeftIsRecordedBelow }
{}

/// So whichever way its queue stands each event of the controller leaves it as it must stand, in memory, in its hub, and in what a run
/// records.
pub fn the_controller_keeps_a_queue_below()
    ensures { ControllerKeepsCourseBelow }
{}

/// Memory shows so a queue at rest below a hub, whose device acts on nothing in the microframe that begins; not with a queue head that
/// works.
pub fn a_queue_below_is_shown()
    ensures shown { shown.Shown }
    ensures head { shown.Head }
    ensures unsent { shown.Unsent }
    ensures working { shown.WorkingBreaks }
{}

/// At each moment of each script that a text spells its hub is the one that its queue head names; and where no line of the script asks that
/// hub to clear a buffer or to reset a translator, it hasn't heard such a request last.
pub fn its_hub_is_spared()
    ensures there { TextsKeepHubs }
    ensures spared { TextsSpareHubs }
{}

/// So it is of the control endpoint of a scanner behind hub 9, where a port of this hub is reset; not where a buffer of it is cleared, nor
/// of one behind a hub that the script hasn't. Before the first line the hub has heard nothing.
pub fn a_scanner_is_behind_its_hub()
    ensures its { IsBehindHub (asked set_reset) (zero (Some 9) 4) }
    ensures other { IsBehindHub (asked set_reset) (zero (Some 8) 4) → ⊥ }
    ensures leaves { LeavesTranslator (asked set_reset) (zero (Some 9) 4) }
    ensures clears { LeavesTranslator (asked clear_first) (zero (Some 9) 4) → ⊥ }
    ensures starts { StartsSpared }
{}

//! Pipes of bulk and interrupt endpoints below hubs, at the events of the controller and at the steps by which the driver goes on (EHCI
//! 1.0, 4.12; USB 2.0, 8.6, 11.17 and 11.18).
ghost use Rattle.law_reports.specs.pipes.below_hubs.Controlled.{
  ControllerKeepsWays,
  ControllerKeepsOutBelow,
  ControllerKeepsInBelow,
  ControllerLeavesOut,
  ControllerLeavesIn,
};
ghost use Rattle.law_reports.specs.pipes.below_hubs.Steps.{StepKeepsOutBehind, StepKeepsInBehind};
ghost use Rattle.law_reports.specs.pipes.below_hubs.BehindLaws.{
  ControllerKeepsBehind,
  DriverKeepsBehind,
  CommandKeepsBehind,
  TextsOpenSpots,
  TextsFindNoneTold,
  NewWorldIsBehind,
  ScriptsAreBehind,
  TextsAreBehind,
};
ghost use Rattle.law_reports.specs.pipes.below_hubs.InwardLaws.{
  SparedHubsKeepKeys,
  ControllerKeepsInward,
  DriverKeepsInward,
  CommandKeepsInward,
  TextsOpenInlets,
  TextsAreInward,
  TextsKeepInsBelow,
  TextsKeepTimelyIns,
  TextsKeepIns,
  TextsHaveResults,
};
ghost use Rattle.law_reports.specs.pipes.below_hubs.Late.{TextsMissLate};
ghost use Rattle.law_reports.specs.pipes.below_hubs.DeafLaws.{UnopenedHubsAreSpared};
ghost use Rattle.law_reports.specs.pipes.below_hubs.BelowLaws.{TextsKeepBelowStreams, TextsKeepStreams};

/// Each step of a queue leaves host, hub and device of such an endpoint as they must stand, while its queue head is still met.
pub fn a_step_keeps_a_pipe_below()
    ensures outward { StepKeepsOutBehind }
    ensures inward { StepKeepsInBehind }
{}

/// Each event of the controller, of either walk, does so too, whatever else is open; for an IN no request may take the key from the hub.
pub fn an_event_keeps_a_pipe_below()
    ensures ways { ControllerKeepsWays }
    ensures outward { ControllerKeepsOutBelow }
    ensures inward { ControllerKeepsInBelow }
{}

/// What hub and device have of such an endpoint that isn't met stays as it must: one that wasn't opened yet, or has left.
pub fn an_event_leaves_an_unmet_pipe_below()
    ensures outward { ControllerLeavesOut }
    ensures inward { ControllerLeavesIn }
{}

/// No start-split of an interrupt endpoint finds in its translator's pipeline what a complete-split was answered with.
pub fn no_start_finds_what_was_told()
    ensures { TextsFindNoneTold }
{}

/// Each event and each command leaves the OUT endpoints as they must stand, with what was put to them, also those that have left; at an
/// event of the controller no start-split may find what was told.
pub fn an_event_keeps_outs_below()
    ensures controller { ControllerKeepsBehind }
    ensures driver { DriverKeepsBehind }
    ensures command { CommandKeepsBehind }
{}

/// So they stand at each moment of each script, whatever endpoints it opens.
pub fn each_moment_has_outs_below()
    ensures spots { TextsOpenSpots }
    ensures opening { NewWorldIsBehind }
    ensures scripts { ScriptsAreBehind }
    ensures texts { TextsAreBehind }
{}

/// So their streams are right at each moment of each script, and after its run.
pub fn each_script_keeps_outs_below()
    ensures below { TextsKeepBelowStreams }
    ensures streams { TextsKeepStreams }
{}

/// Each event and each command leaves an IN endpoint as it must stand; at an event of the controller its hub must be spared: the last
/// request that it heard neither clears a buffer nor resets a translator. And where the last complete-split of a frame comes to an
/// interrupt endpoint, its host must be in time, and the result there.
pub fn an_event_keeps_ins_below()
    ensures spared { SparedHubsKeepKeys }
    ensures controller { ControllerKeepsInward }
    ensures driver { DriverKeepsInward }
    ensures command { CommandKeepsInward }
{}

/// So it stands at each moment of each script before which its hub was spared, and no last complete-split of an interrupt endpoint came
/// too late, whatever endpoints the script opens; and so what is told of it begins its device's stream. None comes too late: a host that
/// waits while a frame begins finds the miss in microframe 0 of the next frame that has it.
pub fn each_moment_has_ins_below()
    ensures opening { TextsOpenInlets }
    ensures standing { TextsAreInward }
    ensures streams { TextsKeepInsBelow }
    ensures timely { TextsKeepTimelyIns }
    ensures missed { TextsMissLate }
    ensures always { TextsKeepIns }
{}

/// Where the walk of the frames comes to the last complete-split of a frame, of an interrupt IN endpoint, the result of what the hub's
/// translator has of it is there.
pub fn the_last_complete_finds_the_result()
    ensures { TextsHaveResults }
{}

/// A hub whose endpoint 0 no line of the script opens hears no request, so it is spared at each moment.
pub fn an_unopened_hub_is_spared()
    ensures { UnopenedHubsAreSpared }
{}

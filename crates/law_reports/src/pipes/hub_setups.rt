//! The requests that hubs hear (EHCI 1.0, 3.5, 4.8 and 4.10; USB 2.0, 8.5.3 and 11.24).
ghost use Rattle.law_reports.specs.pipes.hub_setups.Laws.{
  ControllerKeepsHeeding,
  DriverKeepsHeeding,
  CommandKeepsHeeding,
  HubsHearControls,
  LinesSpareHubs,
};

/// Each event, and each command whose setup bytes pass a test, leaves a world in which all that is sent as a SETUP to an address passes it,
/// and so does what the hub of this address heard last; whatever else is open.
pub fn an_event_sets_up_what_was_asked()
    ensures controller { ControllerKeepsHeeding }
    ensures driver { DriverKeepsHeeding }
    ensures command { CommandKeepsHeeding }
{}

/// So at each moment of each script the request that a hub heard last is one of the script's `control` lines to it; and where none of these
/// clears a buffer or resets a translator, the hub is spared at each moment.
pub fn a_hub_hears_only_its_lines()
    ensures controls { HubsHearControls }
    ensures spared { LinesSpareHubs }
{}

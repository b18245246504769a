//! The streams stay at each event of the controller, of either walk, at each event of the driver, and at each command (EHCI 1.0, 4.6 to
//! 4.12; USB 2.0, 8.6).
ghost use Rattle.law_reports.specs.pipes.DescriptorNames.{
  ControllerKeepsNames,
  DriverKeepsNames,
  CommandKeepsNames,
  NewDescriptorsNamed,
  NamesKeepBeside,
};
ghost use Rattle.law_reports.specs.pipes.FollowedLaws.{
  ControllerKeepsFollowed,
  DriverKeepsFollowed,
  CommandKeepsFollowed,
  NewWorldIsFollowed,
  ScriptsAreFollowed,
  TextsAreFollowed,
};
ghost use Rattle.law_reports.specs.pipes.PipedLaws.{
  ControllerKeepsPiped,
  DriverKeepsPiped,
  CommandKeepsPiped,
  TextsDeclare,
  NewWorldIsPiped,
  ScriptsArePiped,
  TextsArePiped,
};

/// Each isochronous descriptor has the address, the number and the direction of the endpoint that it is of, so an isochronous transaction
/// asks no stream.
pub fn isochronous_transactions_ask_no_stream()
    ensures opening { NewDescriptorsNamed }
    ensures controller { ControllerKeepsNames }
    ensures driver { DriverKeepsNames }
    ensures command { CommandKeepsNames }
    ensures beside { NamesKeepBeside }
{}

/// Both sides of each stream still agree after each event and each command: of an IN endpoint in the packets that came and in the data
/// toggle, of an OUT endpoint in the bytes that were taken and in the toggle.
pub fn an_event_keeps_the_streams()
    ensures controller { ControllerKeepsPiped }
    ensures driver { DriverKeepsPiped }
    ensures command { CommandKeepsPiped }
{}

/// So it is at each moment of each script, whatever endpoints it opens.
pub fn each_moment_is_piped()
    ensures opening { NewWorldIsPiped }
    ensures declared { TextsDeclare }
    ensures scripts { ScriptsArePiped }
    ensures texts { TextsArePiped }
{}

/// What moved of an endpoint still begins its stream once it left the ring or its frames, and what is told of it once it was given back.
pub fn an_event_keeps_those_that_left()
    ensures controller { ControllerKeepsFollowed }
    ensures driver { DriverKeepsFollowed }
    ensures command { CommandKeepsFollowed }
{}

/// So it is at each moment of each script.
pub fn each_moment_is_followed()
    ensures opening { NewWorldIsFollowed }
    ensures scripts { ScriptsAreFollowed }
    ensures texts { TextsAreFollowed }
{}

//! The qTDs of OUT endpoints at high speed are sent whole and in turn after each event of the controller, of either walk, after each event
//! of the driver, and after each command (EHCI 1.0, 4.6 to 4.10).
ghost use Rattle.law_reports.specs.pipes.puts.SentLaws.{
  ControllerKeepsSent,
  DriverKeepsSent,
  CommandKeepsSent,
  NewWorldIsSent,
  ScriptsAreSent,
  TextsAreSent,
};

/// A qTD is done only once all of its bytes were sent, and those that stand before it are done then; each event and each command leaves it
/// so.
pub fn an_event_keeps_what_is_sent()
    ensures controller { ControllerKeepsSent }
    ensures driver { DriverKeepsSent }
    ensures command { CommandKeepsSent }
{}

/// So it is at each moment of each script, whatever endpoints it opens.
pub fn each_moment_sends_whole()
    ensures opening { NewWorldIsSent }
    ensures scripts { ScriptsAreSent }
    ensures texts { TextsAreSent }
{}

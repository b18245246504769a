//! What is told of the queues stays at each event of the controller, of either walk, at each event of the driver, and at each command
//! (EHCI 1.0, 4.6 to 4.10 and 4.12).
ghost use Rattle.law_reports.specs.lines.TellingLaws.{
  ControllerKeepsTelling,
  DriverKeepsTelling,
  RowsKeepIsoGoing,
  CommandKeepsTelling,
  NewWorldIsTold,
  ScriptsAreTold,
  TextsAreTold,
  ScriptsEndOnce,
  TextsEndOnce,
};

/// What the controller moved of a queue head is behind what was moved of it before. An event of the driver reports bytes of one qTD more,
/// or begins with nothing told of a new queue, or tells the same; and no line of it ends an isochronous endpoint that goes on. A command
/// tells the same.
pub fn an_event_adds_what_it_moved()
    ensures controller { ControllerKeepsTelling }
    ensures driver { DriverKeepsTelling }
    ensures going { RowsKeepIsoGoing }
    ensures command { CommandKeepsTelling }
{}

/// So at each moment of each script, whatever endpoints it opens, the lines of the report tell what was harvested of each queue but for
/// what is held back, and this, with what was moved of the qTDs that are out, is all that was moved of it, in order.
pub fn each_moment_is_told()
    ensures opening { NewWorldIsTold }
    ensures scripts { ScriptsAreTold }
    ensures texts { TextsAreTold }
{}

/// And no line follows the one that tells the end of a bulk, interrupt or isochronous endpoint, and nothing of it is pending then.
pub fn each_end_is_told_once()
    ensures scripts { ScriptsEndOnce }
    ensures texts { TextsEndOnce }
{}

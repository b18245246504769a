//! What the device of each OUT endpoint at high speed took begins what was put to it, whatever else is open; so the streams at high speed
//! are right (EHCI 1.0, 3.5.4 and 4.6 to 4.10; USB 2.0, 5.7, 5.8, 8.5 and 8.6).
ghost use Rattle.law_reports.specs.pipes.puts.PaidLaws.{
  ControllerKeepsPaid,
  DriverKeepsPaid,
  CommandKeepsPaid,
  NewWorldIsPaid,
  ScriptsArePaid,
  TextsArePaid,
  TextsTakeWhatWasPut,
  TextsSendHighOuts,
  TextsEndHighStreams,
  TextsKeepAllHighStreams,
};

/// The buffers of puts hold their bytes; what was reported of each OUT endpoint that is there, and behind that what is still to be sent,
/// are its puts, and what its device took begins them, also once it left: each event and each command leaves it so.
pub fn an_event_keeps_what_was_taken()
    ensures controller { ControllerKeepsPaid }
    ensures driver { DriverKeepsPaid }
    ensures command { CommandKeepsPaid }
{}

/// So it is at each moment of each script, of the puts until then: what each device took begins what was put.
pub fn each_moment_takes_what_was_put()
    ensures opening { NewWorldIsPaid }
    ensures scripts { ScriptsArePaid }
    ensures texts { TextsArePaid }
    ensures puts { TextsTakeWhatWasPut }
{}

/// So what each device took begins the stream at each moment of each script that a text spells; and once no line is left to do, all streams
/// at high speed are right.
pub fn all_streams_at_high_speed_are_right()
    ensures sent { TextsSendHighOuts }
    ensures end { TextsEndHighStreams }
    ensures after { TextsKeepAllHighStreams }
{}

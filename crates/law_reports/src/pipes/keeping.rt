//! The streams of bulk and interrupt endpoints at high speed are right at each moment of each script (EHCI 1.0, 4.6 to 4.11; USB 2.0, 5.7,
//! 5.8, 8.5 and 8.6).
ghost use Rattle.law_reports.specs.pipes.high_streams.Keeping.{
  PipedInsBegin,
  PipedOutsBegin,
  PipedKeepHigh,
  TextsKeepHigh,
  TextsKeepHighStreams,
};

/// Where the pipes of a world agree, what was moved of each endpoint at high speed begins its packets, or what its device took.
pub fn piped_worlds_have_high_streams()
    ensures ins { PipedInsBegin }
    ensures outs { PipedOutsBegin }
{}

/// So the streams at high speed are right at each moment of each script, and after its run, whatever else it opens.
pub fn each_script_keeps_its_high_streams()
    ensures piped { PipedKeepHigh }
    ensures texts { TextsKeepHigh }
    ensures after { TextsKeepHighStreams }
{}

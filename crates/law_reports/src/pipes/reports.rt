//! What the report of a world tells of the streams of bulk and interrupt endpoints at high speed (EHCI 1.0, 4.10; USB 2.0, 8.5 and 8.6).
ghost use Rattle.law_reports.specs.pipes.high_streams.Older.{HighKeepsAll, HighSaysAsMuch};
ghost use Rattle.law_reports.specs.pipes.high_streams.Names.{TextsHaveNames};
ghost use Rattle.law_reports.specs.pipes.high_streams.Opened.{MomentsAreOpened};
ghost use Rattle.law_reports.specs.pipes.high_streams.Reports.{
  HighReportsAreRight,
  HighReportsAreTaken,
  HighReportsAreSent,
  HighReportsEndRight,
};

/// Each name of a script that a text spells is that of one endpoint, with its way and its seat.
pub fn texts_have_names()
    ensures { TextsHaveNames }
{}

/// Each endpoint of a script's driver is one that a line of the script opens.
pub fn moments_are_opened()
    ensures { MomentsAreOpened }
{}

/// Where what was moved of each such IN endpoint begins its packets, the IN streams of the report are right; where what was moved of each
/// OUT endpoint begins what its device took, so does what is told of it; and where this begins its puts, it begins its stream. Once no line
/// is left to do, these are all streams at high speed.
pub fn a_report_tells_the_streams()
    ensures ins { HighReportsAreRight }
    ensures taken { HighReportsAreTaken }
    ensures sent { HighReportsAreSent }
    ensures end { HighReportsEndRight }
{}

/// Of a script whose endpoints are high-speed bulk and control ones the streams at high speed are all its streams of data.
pub fn high_streams_are_all_of_an_asynchronous_script()
    ensures each { HighSaysAsMuch }
    ensures whole { HighKeepsAll }
{}

//! Each OUT endpoint at high speed has its taker on the bus, and what this took begins the stream where it begins what was put (EHCI 1.0,
//! 4.10; USB 2.0, 5.8, 8.5 and 8.6).
ghost use Rattle.law_reports.specs.pipes.puts.Takers.{FollowedHaveTakers, TextsHaveTakers, TakenBeginsStreams, TakenEndsRight};

/// Each OUT endpoint at high speed that was opened has its taker on the bus, at each moment of each script: also while it is opened, and
/// once it left or was given back.
pub fn each_out_endpoint_has_its_taker()
    ensures followed { FollowedHaveTakers }
    ensures texts { TextsHaveTakers }
{}

/// Where what each of these took begins what was put, it begins the stream; and once no line is left to do, all streams at high speed are
/// right.
pub fn what_was_put_tells_the_streams()
    ensures sent { TakenBeginsStreams }
    ensures end { TakenEndsRight }
{}

//! Worked rows, which the check computes.
ghost use Rattle.std.specs.Prelude.{◌≡◌, [], ◌∷◌, Some, None};
ghost use Rattle.bus_wire.specs.Bus.{fixed_of};
ghost use Rattle.claims_report.specs.Reports.{Taken, Acted, taken};
ghost use Rattle.claims_report.specs.Samples.{receiver, control};
ghost use Rattle.claims_report.specs.Samples.{AreRightStreams};
ghost use Rattle.law_driver.specs.AsynchronousScripts.{AsynchronousOnly};
ghost use Rattle.law_world.specs.streams.right_reports.Samples.{both_ways};
ghost use Rattle.claims_world.specs.Streams.{report_of, IsTakenSent};
ghost use Rattle.law_world.specs.streams.Asynchronous.{AreSentStreams};
ghost use Rattle.law_world.specs.streams.taken_reports.Samples.{told_with};
ghost use Rattle.law_world.specs.streams.put_laws.TakenPuts.{puts_at};
ghost use Rattle.law_world.specs.streams.put_laws.TakenSamples.{two_puts, report_after};
ghost use Rattle.law_world.specs.streams.sending_worlds.ReportLaws.{HaveTheirTakers, TakesPuts};
ghost use Rattle.law_world.specs.streams.sending_worlds.ReportSamples.{refused_with, requested, stalled_with, once_took};

/// What was taken begins the stream, be it all of it or not; it has no other byte, and none behind the last. Where nothing says what was taken, nothing is asked of it.
pub fn of_the_words()
    ensures unsaid { IsTakenSent None (7 ∷ []) }
    ensures first { IsTakenSent (Some (7 ∷ [])) (7 ∷ 9 ∷ []) }
    ensures all { IsTakenSent (Some (7 ∷ 9 ∷ [])) (7 ∷ 9 ∷ []) }
    ensures other { IsTakenSent (Some (9 ∷ [])) (7 ∷ 9 ∷ []) → ⊥ }
    ensures more { IsTakenSent (Some (7 ∷ 9 ∷ [])) (7 ∷ []) → ⊥ }
{}

/// A byte was put, and the put is done: the device took that byte, or none, or nothing says what it took. A report in which it took another byte, or one more, is not
/// so; nor is one in which it took the byte of a put that is refused. Where it took that byte, all streams of the report are right.
pub fn a_put_of_a_byte()
    ensures taken { AreSentStreams both_ways (told_with (Taken receiver (9 ∷ []) ∷ [])) }
    ensures nothing { AreSentStreams both_ways (told_with (Taken receiver [] ∷ [])) }
    ensures unsaid { AreSentStreams both_ways (told_with []) }
    ensures other { AreSentStreams both_ways (told_with (Taken receiver (8 ∷ []) ∷ [])) → ⊥ }
    ensures more { AreSentStreams both_ways (told_with (Taken receiver (9 ∷ 8 ∷ []) ∷ [])) → ⊥ }
    ensures refused { AreSentStreams both_ways (refused_with (Taken receiver (9 ∷ []) ∷ [])) → ⊥ }
    ensures right { AreRightStreams both_ways (told_with (Taken receiver (9 ∷ []) ∷ [])) }
{}

/// A control endpoint beside them has no stream: its read answered STALL, and all streams of the report are right where the device of the OUT endpoint took its byte.
/// They aren't where it took another one.
pub fn a_stalled_request_beside_a_put()
    ensures only { AsynchronousOnly requested }
    ensures sent { AreSentStreams requested (stalled_with (Taken receiver (9 ∷ []) ∷ Acted control 0 ∷ [])) }
    ensures right { AreRightStreams requested (stalled_with (Taken receiver (9 ∷ []) ∷ Acted control 0 ∷ [])) }
    ensures other { AreSentStreams requested (stalled_with (Taken receiver (8 ∷ []) ∷ Acted control 0 ∷ [])) → ⊥ }
{}

/// Before the first line of a run no line closes the report of the endpoint, which is still to be opened. After the last line, where the device took two bytes of the
/// first put, all is so; where it took the byte of the second put, which was refused, it isn't.
pub fn a_run_of_two_puts()
    ensures before { taken (report_after 0) receiver ≡ None }
    ensures unopened { AreSentStreams two_puts (report_after 0) }
    ensures takers { HaveTheirTakers (fixed_of two_puts) (once_took (1 ∷ 2 ∷ [])) }
    ensures takes { TakesPuts (fixed_of two_puts) (once_took (1 ∷ 2 ∷ [])) (puts_at two_puts 6) }
    ensures closing { taken (report_of (fixed_of two_puts) (once_took (1 ∷ 2 ∷ []))) receiver ≡ Some (1 ∷ 2 ∷ []) }
    ensures sent { AreSentStreams two_puts (report_of (fixed_of two_puts) (once_took (1 ∷ 2 ∷ []))) }
    ensures others { TakesPuts (fixed_of two_puts) (once_took (9 ∷ [])) (puts_at two_puts 6) → ⊥ }
    ensures unsent { AreSentStreams two_puts (report_of (fixed_of two_puts) (once_took (9 ∷ []))) → ⊥ }
{}

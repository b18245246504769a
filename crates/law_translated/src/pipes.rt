//! Pipes: what each end has of the other's packets, whatever is lost on both buses and whatever other endpoints do to the translator.
ghost use Rattle.std.specs.Prelude.{ℕ, List};
ghost use Rattle.law_translated.specs.InPipes as inward;
ghost use Rattle.law_translated.specs.OutPipes as outward;

/// The two ends of an IN pipe agree after each list of events, and the bytes that the host took begin the stream.
pub fn in_pipes_agree()
    ensures keeps { (packets : List (List ℕ)) → inward.KeepsPipe packets }
    ensures agrees { (packets : List (List ℕ)) → inward.PipeAgrees packets }
{}

/// The two ends of an OUT pipe agree after each list of events, also after its end, and the bytes that the device took begin what was put.
pub fn out_pipes_agree()
    ensures keeps { outward.KeepsPipe }
    ensures agrees { outward.PipeAgrees }
{}

/// A pipe whose host waits for a result that is gone from the translator moves nothing any more, and can only end.
pub fn stranded_pipes_only_end()
    ensures in_pipe { inward.StrandedOnlyEnds }
    ensures out_pipe { outward.StrandedOnlyEnds }
{}

//! Each queue head of an interrupt endpoint is visited in its own frames, also while queue heads are linked and unlinked (EHCI 1.0, 3.6, 4.6 and 4.12).
ghost use Rattle.law_microframes.specs.visits.InFrames.{ScriptsStayInFrames, ScriptsGoThroughFrames};

/// At each moment of the run of each script that fits, each queue head that was visited in the microframe is that of an endpoint whose placement is active in the microframe's frame, also
/// where it was unlinked since.
pub fn queue_heads_are_visited_in_their_frames()
    ensures frames { ScriptsStayInFrames }
    ensures visits { ScriptsGoThroughFrames }
{}

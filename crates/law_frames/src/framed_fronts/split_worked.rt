//! Worked rows, which the check computes: a split transaction.
ghost use Rattle.std.specs.Prelude.{◌/◌, [], ◌∷◌};
ghost use Rattle.async_walk.specs.declared.state.WalkStep.{WalkStep};
ghost use Rattle.law_ring.specs.Front.{FrontGoesOn};
ghost use Rattle.law_ring.specs.Halted.{HaltStops};
ghost use Rattle.law_frames.specs.FrameHand.{Nothing, OfQueue, OfSettled};
ghost use Rattle.law_frames.specs.FrameEffects.{FrameEffect};
ghost use Rattle.law_frames.specs.Visits.{IsWrittenBack, back_of};
ghost use Rattle.law_frames.specs.QueueVisitSamples.{met};
ghost use Rattle.law_frames.specs.SplitSamples.{memory, parts, copy, started, waiting, missed, begun, is_silent};
ghost use Rattle.law_frames.specs.framed_fronts.Samples.{lapsed};

/// The start-split of a full-speed interrupt endpoint is written back: the front stays at its qTD.
pub fn a_start_split_leaves_the_front()
    ensures effect { (v : IsWrittenBack met memory parts copy started) → FrameEffect is_silent parts begun.walk (OfSettled copy started 1) 1 1 v.now Nothing WalkStep.WriteBack }
    ensures front { (v : IsWrittenBack met memory parts copy started) → FrontGoesOn (λ a. a / 64) 1 (64 ∷ []) 0 parts v.now }
{}

/// Then its complete-split is missed, and that is written back: the qTD is halted, and the halt stops the queue.
pub fn a_missed_split_halts_the_queue()
    ensures effect { (v : IsWrittenBack met memory parts copy started) (w : IsWrittenBack met (back_of copy started memory).memory v.now waiting missed) → FrameEffect is_silent v.now lapsed (OfQueue waiting 0) 1 1 w.now Nothing WalkStep.WriteBack }
    ensures halts { (v : IsWrittenBack met memory parts copy started) (w : IsWrittenBack met (back_of copy started memory).memory v.now waiting missed) → HaltStops (λ a. a / 64) (64 ∷ []) 0 (w.now 0) }
{}

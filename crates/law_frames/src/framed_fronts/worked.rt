//! Worked rows, which the check computes.
ghost use Rattle.std.specs.Prelude.{ℕ, ◌/◌, [], ◌∷◌};
ghost use Rattle.async_walk.specs.declared.state.WalkStep.{WalkStep};
ghost use Rattle.law_ring.specs.Front.{LinksRise, HasFront, FrontGoesOn};
ghost use Rattle.law_ring.specs.Halted.{HaltStops};
ghost use Rattle.law_frames.specs.FrameHand.{Nothing, OfQueue, OfSettled};
ghost use Rattle.law_frames.specs.Frame.{IsInFrame};
ghost use Rattle.law_frames.specs.FrameEffects.{FrameEffect};
ghost use Rattle.law_frames.specs.QueueVisitSamples.{met, parts, copy, settled, after};
ghost use Rattle.law_frames.specs.QueueStepSamples.{fetched, made, is_heard};
ghost use Rattle.law_frames.specs.framed_fronts.FrameFronts.{AreMet};
ghost use Rattle.law_frames.specs.framed_fronts.Samples.{halted_part, halted_parts, halted_copy, both_out};

/// A queue head of an interrupt endpoint works on its qTD of two bytes, and has its front there. The two bytes come and are written back, and the front goes on.
pub fn a_queue_in_a_frame()
    ensures rise { LinksRise (λ a. a / 64) (parts 0) }
    ensures front { HasFront (λ a. a / 64) 1 (64 ∷ []) 0 (parts 0) }
    ensures halts { HaltStops (λ a. a / 64) (64 ∷ []) 0 (parts 0) }
    ensures effect { FrameEffect is_heard parts made.walk (OfSettled copy settled 1) 1 1 after Nothing WalkStep.WriteBack }
    ensures goes_on { FrontGoesOn (λ a. a / 64) 1 (64 ∷ []) 0 parts after }
{}

/// The walk meets that queue head and has it in hand, which are the premises of the laws.
pub fn the_walk_meets_a_queue()
    ensures met { AreMet met parts }
    ensures in_hand { IsInFrame met parts made.walk.got made.walk.reply (OfSettled copy settled 1) }
{}

/// A queue head that was halted at its first qTD is met too, and has its front behind that one; the halt stops the queue, and the walk passes it by.
pub fn a_halted_queue_in_a_frame()
    ensures met { AreMet met halted_parts }
    ensures in_hand { IsInFrame met halted_parts fetched.walk.got fetched.walk.reply (OfQueue halted_copy 0) }
    ensures front { HasFront (λ a. a / 64) 2 both_out 0 halted_part }
    ensures stops { HaltStops (λ a. a / 64) both_out 0 halted_part }
    ensures effect { FrameEffect is_heard halted_parts fetched.walk (OfQueue halted_copy 0) 1 1 halted_parts Nothing WalkStep.Skip }
{}

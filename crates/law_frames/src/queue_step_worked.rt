//! A worked row, which the check computes.
ghost use Rattle.std.specs.Prelude.{◌≡◌};
ghost use Rattle.async_walk.specs.declared.state.WalkStep.{WalkStep};
ghost use Rattle.periodic_walk.specs.Rows.{step_of, Leads};
ghost use Rattle.law_ring.specs.Effects.{AreBytesHeard};
ghost use Rattle.law_frames.specs.FrameHand.{OfQueue, OfSettled};
ghost use Rattle.law_frames.specs.Frame.{IsFrame};
ghost use Rattle.law_frames.specs.QueueVisitSamples.{met, parts, copy, settled};
ghost use Rattle.law_frames.specs.QueueStepSamples.{fetched, made, is_heard};

/// A queue head that works is in hand, and has its transaction, in which two bytes are heard; they are written back.
pub fn a_queue_head_is_worked()
    ensures before { IsFrame met parts (OfQueue copy 0) fetched }
    ensures transacts { step_of fetched ≡ WalkStep.Transact }
    ensures heard { AreBytesHeard is_heard 0 1 }
    ensures leads { Leads is_heard fetched 0 made 1 }
    ensures after { IsFrame met parts (OfSettled copy settled 1) made }
    ensures writes { step_of made ≡ WalkStep.WriteBack }
{}

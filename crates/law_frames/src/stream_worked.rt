//! Worked rows, which the check computes: what is told of a full-speed interrupt endpoint before and after its complete-split.
ghost use Rattle.std.specs.Prelude.{◌≡◌, [], ◌∷◌};
ghost use Rattle.async_walk.specs.declared.state.WalkStep.{WalkStep};
ghost use Rattle.law_ring.specs.Told.{Told};
ghost use Rattle.law_ring.specs.Streams.{StreamEffect};
ghost use Rattle.law_frames.specs.FrameHand.{Nothing, OfQueue, OfSettled, queue_hand};
ghost use Rattle.law_frames.specs.FrameEffects.{FrameEffect};
ghost use Rattle.law_frames.specs.FrameStreams.{IsIsoAsk};
ghost use Rattle.law_frames.specs.Visits.{IsWrittenBack};
ghost use Rattle.law_frames.specs.QueueVisitSamples.{met};
ghost use Rattle.law_frames.specs.SplitSamples.{memory, parts, copy, started, waiting, ended, hears, is_silent, completing};

/// Its start-split moved nothing, and its write-back tells the same.
pub fn a_start_split_moves_nothing()
    ensures settled { Told (queue_hand (OfSettled copy started 1)) parts 0 64 [] }
    ensures written { (v : IsWrittenBack met memory parts copy started) → Told (queue_hand Nothing) v.now 0 64 [] }
{}

/// Its complete-split brings two bytes: before it none of the qTD are told to be moved, after it these two, which the copy in hand tells.
pub fn a_complete_split_moves_its_bytes()
    ensures effect { (v : IsWrittenBack met memory parts copy started)
        → FrameEffect hears v.now completing (OfQueue waiting 0) 1 2 v.now (OfSettled waiting ended 1) WalkStep.Transact }
    ensures streams { (v : IsWrittenBack met memory parts copy started)
        → StreamEffect (IsIsoAsk v.now) hears v.now (queue_hand (OfQueue waiting 0)) 1 2 v.now (queue_hand (OfSettled waiting ended 1)) }
    ensures before { (v : IsWrittenBack met memory parts copy started) → Told (queue_hand (OfQueue waiting 0)) v.now 0 64 [] }
    ensures after { (v : IsWrittenBack met memory parts copy started)
        → Told (queue_hand (OfSettled waiting ended 1)) v.now 0 64 (1 ∷ 2 ∷ []) }
{}

/// Were that copy let go without a write-back, the two bytes would be told no more: it is no event of a walk.
pub fn a_copy_that_is_let_go_tells_nothing()
    ensures { (v : IsWrittenBack met memory parts copy started) → Told (queue_hand Nothing) v.now 0 64 (1 ∷ 2 ∷ []) → ⊥ }
{}

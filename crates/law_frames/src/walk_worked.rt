//! A worked row, which the check computes: the chain of an iTD and a queue head is walked in microframe 2, from its first link to its end.
ghost use Rattle.std.specs.Prelude.{◌≡◌, [], ◌∷◌};
ghost use Rattle.word_mem.specs.Memory.{word_at};
ghost use Rattle.async_walk.specs.declared.state.WalkStep.TheVariants.{Fetch, Transact, WriteBack, Skip, Ended};
ghost use Rattle.law_frames.specs.FrameHand.{Nothing};
ghost use Rattle.law_frames.specs.Frame.{IsFrame};
ghost use Rattle.law_frames.specs.PartSamples.{met, parts};
ghost use Rattle.law_frames.specs.Walks.{HearsBytes, Walks};
ghost use Rattle.law_frames.specs.WalkSamples.{hears, first, done};

/// The iTD is read, has its transaction, in which two bytes come, and is written back; the queue head is read, and has nothing to do in this microframe; then
/// the chain ends. The bytes are in the buffer, and microframe 2 of the iTD isn't active any more.
pub fn a_chain_is_walked()
    ensures frame { IsFrame met parts Nothing first }
    ensures heard { HearsBytes hears }
    ensures walk { Walks hears done 1 (Fetch ∷ Transact ∷ WriteBack ∷ Fetch ∷ Skip ∷ Ended ∷ []) first 0 }
    ensures bytes { word_at done.memory 192 ≡ 0x605 }
    ensures word { word_at done.memory 76 ≡ 0x200C0 }
{}

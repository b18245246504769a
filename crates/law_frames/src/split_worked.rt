//! Worked rows, which the check computes: a split transaction of an interrupt endpoint.
ghost use Rattle.std.specs.Prelude.{◌≡◌, true, false, [], ◌∷◌};
ghost use Rattle.usb_base.specs.declared.endpoints.EndCause.TheVariants.{Miss as Missed};
ghost use Rattle.toggle_error.specs.declared.host.Outcome.TheVariants.{Wait, Moved, Halt};
ghost use Rattle.hc_interrupt.specs.declared.turns.Turn.TheVariants.{Work, Miss};
ghost use Rattle.hc_interrupt.specs.Turns.{turn_of};
ghost use Rattle.word_mem.specs.Memory.{word_at};
ghost use Rattle.async_walk.specs.declared.state.WalkStep.{WalkStep};
ghost use Rattle.async_walk.specs.declared.state.WalkStep.TheVariants.{Fetch, Transact, WriteBack, Ended};
ghost use Rattle.periodic_walk.specs.Rows.{step_of, Leads};
ghost use Rattle.law_frames.specs.FrameHand.{Nothing, OfQueue, OfSettled};
ghost use Rattle.law_frames.specs.Frame.{IsFrame};
ghost use Rattle.law_frames.specs.FrameEffects.{queue_written, after_back};
ghost use Rattle.law_frames.specs.Visits.{IsQueueVisit, IsWrittenBack, back_of};
ghost use Rattle.law_frames.specs.QueueVisitSamples.{met};
ghost use Rattle.law_frames.specs.SplitSamples.{split_queue, memory, parts, copy, started, waiting, ended, missed, fetched, begun, is_silent, hears, first, first_done, second, second_done};
ghost use Rattle.law_frames.specs.Walks.{Walks};

/// The start-split is made in microframe 0 of frame 5; its write-back leaves the queue head in Do-Complete, with the frame noted, and the visit is over.
pub fn a_start_split()
    ensures visit { IsQueueVisit met memory parts copy }
    ensures starts { turn_of 40 split_queue ≡ Work }
    ensures waits { started.outcome ≡ Wait }
    ensures noted { started.frame_tag ≡ 5 }
    ensures back { IsWrittenBack met memory parts copy started }
    ensures do_complete { waiting.queue.token.split_state ≡ true }
    ensures tag { waiting.queue.frame_tag ≡ 5 }
    ensures over { after_back copy started 1 ≡ Nothing }
{}

/// The walk has that queue head in hand: the start-split is its event, and the write-back comes next.
pub fn a_start_split_is_walked()
    ensures before { IsFrame met parts (OfQueue copy 0) fetched }
    ensures transacts { step_of fetched ≡ WalkStep.Transact }
    ensures leads { Leads is_silent fetched 0 begun 1 }
    ensures after { IsFrame met parts (OfSettled copy started 1) begun }
{}

/// The walk of that microframe: the queue head is read, has its start-split and is written back; then the chain ends. The token's word has the split state, and
/// word 9 the frame.
pub fn a_start_split_is_written()
    ensures frame { IsFrame met parts Nothing first }
    ensures walk { Walks is_silent first_done 1 (Fetch ∷ Transact ∷ WriteBack ∷ Ended ∷ []) first 0 }
    ensures token { word_at first_done.memory 24 ≡ 0x20D82 }
    ensures tag { word_at first_done.memory 36 ≡ 5 }
{}

/// In microframe 2 its complete-split brings two bytes, which end the qTD; the C-prog-mask has that microframe.
pub fn a_complete_split()
    ensures completes { turn_of 42 waiting.queue ≡ Work }
    ensures moves { ended.outcome ≡ Moved 2 }
    ensures got { ended.got ≡ 1 ∷ 2 ∷ [] }
    ensures marked { ended.c_prog ≡ 0x04 }
    ensures back { (v : IsWrittenBack met memory parts copy started) → IsWrittenBack met (back_of copy started memory).memory v.now waiting ended }
    ensures done { (queue_written waiting ended).token.active ≡ false }
    ensures over { after_back waiting ended 1 ≡ Nothing }
{}

/// The walk of that microframe: the queue head is read, has its complete-split and is written back; then the chain ends. The bytes are in the buffer, the qTD is
/// done, and word 8 of the queue head has the microframe.
pub fn a_complete_split_is_written()
    ensures walk { Walks hears second_done 2 (Fetch ∷ Transact ∷ WriteBack ∷ Ended ∷ []) second 1 }
    ensures bytes { word_at second_done.memory 100 ≡ 0x201 }
    ensures done { word_at second_done.memory 72 ≡ 0x80000D00 }
    ensures prog { word_at second_done.memory 32 ≡ 0x04 }
{}

/// Where no complete-split was made in microframe 2, microframe 3 finds a miss: the qTD halts with Missed Micro-Frame, and nothing was moved.
pub fn a_missed_complete_split()
    ensures misses { turn_of 43 waiting.queue ≡ Miss }
    ensures halts { missed.outcome ≡ Halt Missed }
    ensures back { (v : IsWrittenBack met memory parts copy started) → IsWrittenBack met (back_of copy started memory).memory v.now waiting missed }
    ensures told { (queue_written waiting missed).token.missed ≡ true }
    ensures halted { (queue_written waiting missed).token.halted ≡ true }
    ensures idle { (queue_written waiting missed).token.active ≡ false }
    ensures left { (queue_written waiting missed).token.total ≡ 2 }
    ensures over { after_back waiting missed 0 ≡ Nothing }
{}

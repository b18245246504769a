ghost use Rattle.law_frames.specs.QueueVisitLaws.{AdvanceStays, AdvanceIsOnlyThere, TransactionSendsItsBytes, Settles, CopySettles, StartsSplit, CompletesSplit, StaysPlain, MissSettles, CopyMisses, MissHalts, HandIsSettled, WriteBackKeepsVisit};

/// A qTD was taken: the queue head with it as its overlay is met, memory is told, the copy in hand is one of what stands there, and no other part is changed.
pub fn an_advance_keeps_the_visit()
    ensures visit { AdvanceStays }
    ensures only { AdvanceIsOnlyThere }
{}

/// Where the overlay is active, the bytes that go out are those of one buffer from the place of the overlay on, and the controller may read all of them.
pub fn transaction_sends_its_bytes()
    ensures { TransactionSendsItsBytes }
{}

/// Whatever is heard, the transaction settles, also a start-split or a complete-split; and the copy has it.
pub fn a_transaction_settles()
    ensures settlement { Settles }
    ensures copy { CopySettles }
{}

/// Below high speed a start-split moves nothing, whatever is heard, notes its frame, and leaves complete-splits to come; a complete-split notes its microframe. At
/// high speed neither is noted.
pub fn what_a_split_notes()
    ensures starts { StartsSplit }
    ensures completes { CompletesSplit }
    ensures plain { StaysPlain }
{}

/// A microframe of its split transaction that was missed settles too: the qTD is halted with Missed Micro-Frame, nothing of it was moved, and the visit is over.
pub fn a_miss_settles()
    ensures settlement { MissSettles }
    ensures copy { CopyMisses }
    ensures halts { MissHalts }
{}

/// Whatever is written back is the copy of a queue head that stands there, and is settled.
pub fn hand_is_settled()
    ensures { HandIsSettled }
{}

/// What the transaction came to is written back in full: the queue head that is written is met, memory is told, the copy in hand is again one of what stands there,
/// and no other part is changed.
pub fn write_back_keeps_visit()
    ensures { WriteBackKeepsVisit }
{}

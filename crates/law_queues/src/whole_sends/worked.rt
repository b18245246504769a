//! Worked rows.
ghost use Rattle.std.specs.Prelude.{◌≡◌, [], ◌∷◌, ◌++◌, Some};
ghost use Rattle.qh_qtd.specs.Blank.{blank_qtd};
ghost use Rattle.async_walk.specs.declared.state.WalkStep.TheVariants.{WriteBack};
ghost use Rattle.law_structures.specs.lent_structures.Structures.{Element};
ghost use Rattle.law_structures.specs.lent_structures.Sound.{IsMember};
ghost use Rattle.law_ring.specs.Hand.{Empty};
ghost use Rattle.law_ring.specs.Ring.{IsInHand};
ghost use Rattle.law_ring.specs.Effects.{Effect};
ghost use Rattle.law_ring.specs.Order.{IsSorted, Accounts};
ghost use Rattle.law_ring.specs.Front.{LinksWithin, HasFront, HasTail};
ghost use Rattle.law_ring.specs.OutPipes.{IsOut, IsNext};
ghost use Rattle.law_queues.specs.whole_sends.Whole.{EndsWhole, AreSentWhole, buffers_of};
ghost use Rattle.law_queues.specs.whole_sends.Laws.{IsNewBehind};
ghost use Rattle.law_queues.specs.whole_sends.Samples.{order, ahead, behind, more, working, parts, earlier, parts_halted, member, acknowledgement, sent, written, sent_second};

use usb_base::Wire;

/// The qTDs of an OUT queue are sent whole and in turn: four bytes were sent, and the next packet has the fifth.
pub fn a_queue_at_work()
    ensures whole { AreSentWhole order (ahead ++ behind) Empty 64 (parts 64) }
    ensures member { IsMember member 64 (parts 64) }
    ensures outs { IsOut (parts 64) }
    ensures accounts { Accounts order 7 (ahead ++ behind) Empty parts 64 (7 ∷ 9 ∷ 1 ∷ 2 ∷ []) }
    ensures next { IsNext (parts 64) working (3 ∷ []) }
    ensures ahead { buffers_of (parts 64) ahead ≡ 7 ∷ 9 ∷ 1 ∷ 2 ∷ 3 ∷ [] }
    ensures all { buffers_of (parts 64) (ahead ++ behind) ≡ 7 ∷ 9 ∷ 1 ∷ 2 ∷ 3 ∷ 6 ∷ 8 ∷ [] }
{}

/// The tail of it, which is published next.
pub fn a_queue_with_a_tail()
    ensures front { HasFront order 6 (ahead ++ behind) 64 (parts 64) }
    ensures within { LinksWithin order 224 (parts 64) }
    ensures tail { HasTail order 224 6 64 (parts 64) }
    ensures sorted { IsSorted order (ahead ++ 224 ∷ behind) }
{}

/// The transfer that is being published came behind all that stood before.
pub fn a_transfer_behind()
    ensures more { IsNewBehind order (ahead ++ behind) earlier (parts 64) 256 more }
    ensures end { IsNewBehind order (ahead ++ behind) earlier (parts 64) 288 blank_qtd }
{}

/// Once its last byte was acknowledged, the transaction that isn't written back ends the qTD whole.
pub fn a_transaction_in_hand()
    ensures hand { IsInHand member parts acknowledgement sent }
    ensures ends { EndsWhole sent 64 }
    ensures whole { AreSentWhole order (ahead ++ behind) sent 64 (parts 64) }
{}

/// Its write-back is an event of the walk, and leaves the second qTD done, with no bytes left.
pub fn a_write_back<W: Wire>()
    ensures event { (wire : W) → Effect W.transacts parts sent wire wire written Empty WriteBack }
    ensures done { written 64 192 ≡ Some (Element sent_second) }
    ensures whole { AreSentWhole order (ahead ++ behind) Empty 64 (written 64) }
{}

/// A queue that the device stalled has sent four bytes, and sends no more.
pub fn a_halted_queue()
    ensures whole { AreSentWhole order (ahead ++ behind) Empty 64 (parts_halted 64) }
    ensures accounts { Accounts order 7 (ahead ++ behind) Empty parts_halted 64 (7 ∷ 9 ∷ 1 ∷ 2 ∷ []) }
{}

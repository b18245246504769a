//! The laws.
ghost use Rattle.std.specs.Prelude.{◌≡◌, true, false};
ghost use Rattle.async_walk.specs.Rows.{WalkPlace, at_event, event_row, Leads};
ghost use Rattle.law_ring.specs.Doorbell.{IsAtHead};
ghost use Rattle.law_ring.specs.StoreLaws.{ElementMayChange, ElementMayCome, BufferMayCome, ElementMayGo, BufferMayGo};
ghost use Rattle.law_ring.specs.StoreLaws.{ElementStoreLeavesRing, LinkStoreLeavesRing, MendingLeavesRing};
ghost use Rattle.law_ring.specs.StoreLaws.{OtherPartsLeaveRing, LendLeavesRing, AnotherLeavesRing, FewerLeaveRing, StrangersLeaveRing, AnswerLeavesRing};

use usb_base::Wire;

/// What a driver may do to the qTDs and buffers of a queue head that the walk may meet (3.5 and 4.10).
pub fn what_a_part_may_become()
    ensures change { ElementMayChange }
    ensures element { ElementMayCome }
    ensures buffer { BufferMayCome }
    ensures element_gone { ElementMayGo }
    ensures buffer_gone { BufferMayGo }
{}

/// A store leaves a ring: of a word of a qTD that isn't active, of a queue head's link, and of any word of a queue head that is halted. A copy in
/// hand stays as it was read (4.8.1 and 4.10.1).
pub fn stores_leave_a_ring()
    ensures element { ElementStoreLeavesRing }
    ensures link { LinkStoreLeavesRing }
    ensures mending { MendingLeavesRing }
{}

/// So do lends, and returns of what the walk doesn't need any more.
pub fn lends_and_returns_leave_a_ring()
    ensures parts { OtherPartsLeaveRing }
    ensures lend { LendLeavesRing }
    ensures another { AnotherLeavesRing }
    ensures fewer { FewerLeaveRing }
    ensures strangers { StrangersLeaveRing }
{}

/// The event that answers the doorbell leaves the walk at the head of the ring (4.8.2).
pub fn the_doorbell_is_answered_at_the_head<W: Wire>()
    ensures { (p new : WalkPlace) (wire after : W) → Leads W.transacts (event_row p) (at_event p) wire new after → p.registers.async_advance ≡ false
        → new.registers.async_advance ≡ true → IsAtHead new }
{}

/// From then on the walk meets only queue heads whose links lead among them: what has left before isn't met any more (4.8.2).
pub fn answer_leaves_ring()
    ensures { AnswerLeavesRing }
{}

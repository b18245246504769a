//! The laws of the frames with a ring beside them.
ghost use Rattle.law_controller.specs.frame_stores.PartLaws.{ElementStoreLeavesBoth};
ghost use Rattle.law_controller.specs.frame_stores.BothLaws.{LinkStoreLeavesBoth, LinkWordLeavesBoth, ListStoreLeavesBoth, RingStoreLeavesBoth, OtherPartsLeaveBoth, UnmetPartsLeaveBoth};
ghost use Rattle.law_controller.specs.frame_stores.BothLaws.{LendLeavesBoth, AnotherLeavesBoth, StrangersLeaveBoth};
ghost use Rattle.law_controller.specs.frame_stores.BothLaws.{MoreAreMetBesideRing, FewerAreMetBoth, FewerAreMetOutside, BeginIsAtElement, BeginMeetsFewer};
ghost use Rattle.law_controller.specs.frame_stores.BothLaws.{OtherOwnersLeaveRing, RestLeavesBoth};

/// A store leaves both: of the link or of a qTD of an owner that isn't of the ring, of an element of the frame list, and whatever leaves the ring elsewhere.
pub fn stores_leave_both()
    ensures link { LinkStoreLeavesBoth }
    ensures word { LinkWordLeavesBoth }
    ensures list { ListStoreLeavesBoth }
    ensures element { ElementStoreLeavesBoth }
    ensures ring { RingStoreLeavesBoth }
{}

/// A ring doesn't need to be told of what belongs to others.
pub fn other_owners_leave_ring()
    ensures { OtherOwnersLeaveRing }
{}

/// So do lends, returns of what neither walk meets, and whatever changes no Lent block.
pub fn lends_and_returns_leave_both()
    ensures parts { OtherPartsLeaveBoth }
    ensures unmet { UnmetPartsLeaveBoth }
    ensures lend { LendLeavesBoth }
    ensures another { AnotherLeavesBoth }
    ensures strangers { StrangersLeaveBoth }
    ensures rest { RestLeavesBoth }
{}

/// The walk of the frames may meet more that aren't of the ring, each of them sound.
pub fn more_are_met_beside_ring()
    ensures { MoreAreMetBesideRing }
{}

/// It meets no others from then on: at any moment once nothing of it leads to another, and outside of the periodic part once no element and none that is met does.
pub fn fewer_are_met_beside_a_ring()
    ensures any { FewerAreMetBoth }
    ensures outside { FewerAreMetOutside }
{}

/// At the begin of a microframe the walk stands where an element of the frame list leads, with nothing in hand (4.6).
pub fn begin_is_at_element()
    ensures { BeginIsAtElement }
{}

/// So from then on those alone are met to which an element leads, or a link of one of them.
pub fn begin_meets_fewer()
    ensures { BeginMeetsFewer }
{}

//! The laws of the frames.
ghost use Rattle.law_controller.specs.frame_stores.PartLaws.{MetElementMayChange, MetElementMayCome, MetBufferMayCome, MetElementMayGo, MetBufferMayGo, ElementStoreLeavesFrame};
ghost use Rattle.law_controller.specs.frame_stores.Laws.{LinkStoreLeavesFrame, LinkWordLeavesFrame, StoredLinkLeads, TableStoreLeavesFrame, OtherPartsLeaveFrame, UnmetPartsLeaveFrame};
ghost use Rattle.law_controller.specs.frame_stores.Laws.{LendLeavesFrame, AnotherLeavesFrame, FewerLeaveFrame, StrangersLeaveFrame, MoreAreMet, FewerAreMet};

/// What a driver may do to the qTDs and buffers of a queue head that is met (3.5 and 4.10).
pub fn what_a_met_part_may_become()
    ensures change { MetElementMayChange }
    ensures element { MetElementMayCome }
    ensures buffer { MetBufferMayCome }
    ensures element_gone { MetElementMayGo }
    ensures buffer_gone { MetBufferMayGo }
{}

/// A store leaves the frames: of the link of a structure, of a word of a table, and of a word of a qTD. A copy in hand stays as it was read, with its older link (4.6).
pub fn stores_leave_the_frames()
    ensures link { LinkStoreLeavesFrame }
    ensures word { LinkWordLeavesFrame }
    ensures leads { StoredLinkLeads }
    ensures table { TableStoreLeavesFrame }
    ensures element { ElementStoreLeavesFrame }
{}

/// So do lends, and returns of what the walk doesn't meet.
pub fn lends_and_returns_leave_the_frames()
    ensures parts { OtherPartsLeaveFrame }
    ensures unmet { UnmetPartsLeaveFrame }
    ensures lend { LendLeavesFrame }
    ensures another { AnotherLeavesFrame }
    ensures fewer { FewerLeaveFrame }
    ensures strangers { StrangersLeaveFrame }
{}

/// The walk may meet more, each of them sound.
pub fn more_are_met()
    ensures { MoreAreMet }
{}

/// It meets no others from then on, once nothing of it leads to another.
pub fn fewer_are_met()
    ensures { FewerAreMet }
{}

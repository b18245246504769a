//! The parts of an isochronous OUT come in turn: what events leave of its entry.
ghost use Rattle.law_microframes.specs.translators.Turns.{OutsAreLacked, UnframedIsNew, DriverKeepsOuts, CommandKeepsOuts};
ghost use Rattle.law_microframes.specs.translators.Turns.{BeginKeepsOuts, EndKeepsOuts, IdleKeepsOuts, NewOutsGoOn, OtherAsksLeave, LaterPartsLeave};
ghost use Rattle.law_microframes.specs.translators.Parts.{Lacks, IsEven, PartsGoOn, OtherStartsLeave, CompletesLeave, FoundLacks, WorkLeavesLacking, WorkMakesEven};

/// An OUT that is still active after a part leaves its entry lacking its last; so do starts of others, complete-splits and the work of a
/// microframe, after which no part came. So it is of the entry that the key finds.
pub fn parts_come_in_turn()
    ensures own { PartsGoOn }
    ensures others { OtherStartsLeave Lacks }
    ensures others_even { OtherStartsLeave IsEven }
    ensures completes { CompletesLeave Lacks }
    ensures completes_even { CompletesLeave IsEven }
    ensures work { WorkLeavesLacking }
    ensures even { WorkMakesEven }
    ensures found { FoundLacks }
{}

/// Where it goes on so, the entry of the siTD in hand lacks its last part, and none came to it in this microframe. Of a siTD that has no
/// frame yet no part was sent; and each event of the driver, each command and each microframe that begins or ends goes on with it. A
/// transaction of the host that starts none of a key leaves what is told of its entries; and so does a part of an OUT that has some before
/// it and some behind it.
pub fn outs_come_in_turn()
    ensures lacked { OutsAreLacked }
    ensures unframed { UnframedIsNew }
    ensures driver { DriverKeepsOuts }
    ensures command { CommandKeepsOuts }
    ensures begin { BeginKeepsOuts }
    ensures end { EndKeepsOuts }
    ensures idle { IdleKeepsOuts }
    ensures new { NewOutsGoOn }
    ensures asks { OtherAsksLeave Lacks }
    ensures asks_even { OtherAsksLeave IsEven }
    ensures later { LaterPartsLeave }
{}

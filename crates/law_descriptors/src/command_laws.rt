//! The laws.
ghost use Rattle.law_descriptors.specs.CommandLaws.{DescribesLeaves, DescribesTold, FramesTold, LendTold, LendRunsBoth};
ghost use Rattle.law_descriptors.specs.CommandLaws.{RowsTold, CommandsDescribe, QueueLendDescribes};

/// Where a command with isochronous descriptors is accepted, what was Lent stays so, and memory has for the driver what it had; so it is where they get their
/// frames.
pub fn descriptors_are_accepted()
    ensures leaves { DescribesLeaves }
    ensures told { DescribesTold }
    ensures frames { FramesTold }
{}

/// Where they are lent, it has them besides, and no more; and the ring and the frames go on as they were, whatever is in hand.
pub fn descriptors_are_lent_beside()
    ensures told { LendTold }
    ensures both { LendRunsBoth }
{}

/// A row of the driver that takes no run, and lends and gives back none, leaves what memory has for it; and no command lends or gives back a descriptor, nor
/// does a lend of other runs.
pub fn others_leave_descriptors()
    ensures rows { RowsTold }
    ensures commands { CommandsDescribe }
    ensures lend { QueueLendDescribes }
{}

//! The laws.
ghost use Rattle.law_queues.specs.standing_fronts.Along.{WalkKeepsFronts, HarvestKeepsFronts, AlikeKeepFronts, IdleStoreKeepsFronts, LastStoreKeepsFronts};
ghost use Rattle.law_queues.specs.standing_fronts.Reaching.{ReachesWalk, ReachesIdleStore, ReachesLastStore, ReleaseLeavesTails};

use usb_base::Wire;

/// Each event of the walk leaves the fronts of queues, or moves one on.
pub fn walk_keeps_fronts<W: Wire>()
    ensures { WalkKeepsFronts W.transacts }
{}

/// So does a harvest: the transfer that it ends is behind its front.
pub fn harvest_keeps_fronts()
    ensures { HarvestKeepsFronts }
{}

/// So do rows and commands that leave met endpoints and transfers that are to be given back, stores of a qTD that isn't active, and the last one, which
/// publishes a qTD past which the walk hasn't gone.
pub fn other_rows_leave_fronts()
    ensures alike { AlikeKeepFronts }
    ensures store { IdleStoreKeepsFronts }
    ensures last { LastStoreKeepsFronts }
{}

/// The walk goes no further than the tail of a queue: along its events, stores of a qTD that is being published, and the last store, which moves the tail.
pub fn fronts_stay_before_tails<W: Wire>()
    ensures walk { ReachesWalk W.transacts }
    ensures idle { ReachesIdleStore }
    ensures last { ReachesLastStore }
{}

/// So where the blocks of a harvested transfer are given back, in the ring or in frames.
pub fn release_leaves_tails()
    ensures { ReleaseLeavesTails }
{}

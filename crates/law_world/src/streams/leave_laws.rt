//! The laws.
ghost use Rattle.law_world.specs.streams.Beside.{LeaveKeepsTails, CancelKeepsTold, ClearKeepsTold};
ghost use Rattle.law_world.specs.streams.Cancelling.{CancelFeeds};

/// A cancel, accepted or refused, leaves each queue fed, with the same queue heads that the walk may meet, the same streams and the same bytes.
pub fn cancel_feeds()
    ensures { CancelFeeds }
{}

/// Both leave each queue that the walk may meet with its front and its tail, and what is told of it.
pub fn what_is_told_stands()
    ensures tails { LeaveKeepsTails }
    ensures cancel { CancelKeepsTold }
    ensures clear { ClearKeepsTold }
{}

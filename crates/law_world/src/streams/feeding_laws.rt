//! Worlds at work of bulk and control endpoints (EHCI 1.0, 3.5, 4.6, 4.8 and 4.10; USB 2.0, 5.5, 5.8 and 8.6): each queue is fed as the driver's content tells,
//! and the bytes of a bulk endpoint's qTDs add up.
ghost use Rattle.law_world.specs.streams.FeedingLaws.{NewWorldFeeds, CommandFeeds, StoreFeeds};
ghost use Rattle.law_world.specs.streams.HarvestFeeds.{PassedAreUntold};

/// The world of every script begins so.
pub fn new_world_feeds()
    ensures { NewWorldFeeds }
{}

/// And so does each command, accepted or refused.
pub fn command_feeds()
    ensures { CommandFeeds }
{}

/// And each store of the first qTD of a transfer.
pub fn store_feeds()
    ensures { StoreFeeds }
{}

/// Of what a short packet passed over no bytes are told.
pub fn passed_are_untold()
    ensures { PassedAreUntold }
{}

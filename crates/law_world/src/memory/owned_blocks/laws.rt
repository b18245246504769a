ghost use Rattle.law_world.specs.memory.owned_blocks.Laws.{NewDriverOwnsAll, CommandOwnsAll, EventOwnsAll, LentBlocksAreNeeded, NeededRunsAreLent};
ghost use Rattle.law_world.specs.memory.owned_blocks.Worlds.{EachMomentOwnsItsBlocks};

/// A driver that was just built has the runs of its frame list and its head, and no others.
pub fn new_driver_owns_all()
    ensures { NewDriverOwnsAll }
{}

/// A command that is accepted takes no run but those of what it brings.
pub fn command_owns_all()
    ensures { CommandOwnsAll }
{}

/// Each event of the driver gives back all runs of what goes.
pub fn event_owns_all()
    ensures { EventOwnsAll }
{}

/// Just the blocks of lent runs that are still needed are Lent.
pub fn lent_blocks_are_needed()
    ensures { LentBlocksAreNeeded }
{}

/// Each run that is still needed is lent, but those that the unfinished command took and has still to lend.
pub fn needed_runs_are_lent()
    ensures { NeededRunsAreLent }
{}

/// At each moment of each script just the blocks that are still needed are Lent.
pub fn each_moment_owns_its_blocks()
    ensures { EachMomentOwnsItsBlocks }
{}

//! Worked rows of refusals: an open, with and without blocks for it, and a get before it.
ghost use Rattle.law_answers.specs.Worked.{OpensWithRoom, NoBlocksIsWrong, LacksARun, GetIsNoEndpoint, BusyComesFirst};

/// Where three blocks are Free in a row nothing stands against the open of a bulk endpoint; where the middle one is taken, no run of two
/// is there.
pub fn an_open_needs_a_run_of_two_blocks()
    ensures room { OpensWithRoom }
    ensures lacks { LacksARun }
{}

/// A driver that always says that no blocks are Free isn't right.
pub fn refusals_are_broken_by_no_blocks_at_all_times()
    ensures { NoBlocksIsWrong }
{}

/// A get of an endpoint that was never opened has none; while a command is unfinished that is told alone.
pub fn a_get_before_its_open_has_no_endpoint()
    ensures none { GetIsNoEndpoint }
    ensures busy { BusyComesFirst }
{}

//! A worked row.
ghost use Rattle.law_ring.specs.Fewer.{MayGo};
ghost use Rattle.law_ring.specs.ReleaseSamples.{rested, part, goes};

/// A qTD that a short packet passed over may go, though it is published.
pub fn a_passed_qtd_may_go()
    ensures { MayGo goes 64 part rested }
{}

//! A worked row, which the check computes.
ghost use Rattle.law_ring.specs.Hand.{Empty};
ghost use Rattle.law_ring.specs.Ring.{IsRing};
ghost use Rattle.law_ring.specs.StoreSamples.{base, member, parts, ring};

/// The halted head of a ring and a queue head that works on its qTD, in a memory of 1,024 words, are a ring.
pub fn a_ring_at_work()
    ensures { IsRing base member parts Empty ring }
{}

//! Queue heads that left the ring (EHCI 1.0, 4.8.2): one leads to the other, which left later and leads to the head.
ghost use Rattle.worked_claims.specs.LeftQueues.{LaterLeads, EarlierBreaks, ItselfBreaks};

/// The links are so in the order in which both left, and not in the other order; and none that left leads to itself.
pub fn one_leads_to_what_left_later()
    ensures holds { LaterLeads }
    ensures order { EarlierBreaks }
    ensures itself { ItselfBreaks }
{}

//! Queue heads and isochronous descriptors that left the frame list (EHCI 1.0, 4.6): where their links may lead.
ghost use Rattle.worked_claims.specs.LeftFrames.{LiveLeads, EndLeads, LaterLeads, EarlierBreaks};

/// Such a link may lead to a live queue head or descriptor, to the end of the frame, or to one that left later; and not to one that left
/// earlier.
pub fn one_leads_on()
    ensures live { LiveLeads }
    ensures end { EndLeads }
    ensures later { LaterLeads }
    ensures earlier { EarlierBreaks }
{}

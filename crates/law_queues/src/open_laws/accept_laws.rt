//! The laws.
ghost use Rattle.law_queues.specs.open_laws.Accepted.{OpenBecomesReady, ReadyStays};

/// Once an open was accepted its structures are ready to be lent, and what the controller doesn't reach leaves them so.
pub fn an_accepted_open_waits()
    ensures ready { OpenBecomesReady }
    ensures stays { ReadyStays }
{}

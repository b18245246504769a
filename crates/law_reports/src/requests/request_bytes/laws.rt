//! The laws.
ghost use Rattle.law_reports.specs.requests.request_bytes.Held.{AcceptedRequestIsHeld, HeldRequestStays};
ghost use Rattle.law_reports.specs.requests.request_bytes.Fresh.{LentRequestIsFresh};

/// A request that was accepted has its setup bytes, and the data that go out, in its buffers.
pub fn accepted_request_is_held()
    ensures { AcceptedRequestIsHeld }
{}

/// Whatever writes nothing but what is lent leaves them, as the controller does: the runs of the buffers aren't lent yet.
pub fn held_request_stays()
    ensures { HeldRequestStays }
{}

/// Once its buffers are lent, its qTDs, with the SETUP stored in the place of the inactive one, are as a new request's must be.
pub fn lent_request_is_fresh()
    ensures { LentRequestIsFresh }
{}

ghost use Rattle.law_queues.specs.told_endpoints.Steps.{KeepsNames, AddsRefusal, OpenAddsEndpoint, AddsHeld, AddsBytes, RequestsAddNoStream};

/// Where endpoints are named as before, the lines tell the same; the line of a refused command tells of none.
pub fn names_and_refusals_tell_nothing()
    ensures names { KeepsNames }
    ensures refusal { AddsRefusal }
{}

/// An endpoint that is opened has no lines yet.
pub fn open_adds_endpoint()
    ensures { OpenAddsEndpoint }
{}

/// The bytes of a qTD that is harvested are held back, or told at once behind those that were.
pub fn harvests_add_bytes()
    ensures held { AddsHeld }
    ensures told { AddsBytes }
{}

/// A line of a control endpoint tells nothing of the others: its requests are told one by one.
pub fn requests_add_no_stream()
    ensures { RequestsAddNoStream }
{}

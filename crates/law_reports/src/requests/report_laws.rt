//! The laws.
ghost use Rattle.law_reports.specs.requests.Telling.{TellingIsTold, ActsKeepTelling, QuietRowKeepsTelling, OtherHarvestKeepsTelling, OtherReturnsKeepTelling, HarvestKeepsTelling, HarvestTells, StallTells, AcceptedKeepsTelling, OtherAcceptedKeepsTelling};

/// The lines of a control endpoint tell of the windows of those of its transfers that are reported, whatever is recorded of those that wait.
pub fn lines_tell_of_reported_requests()
    ensures told { TellingIsTold }
    ensures acts { ActsKeepTelling }
{}

/// So they do after each row of the driver that adds no line, after a harvest and a return of another endpoint, and after a harvest that doesn't end a request.
pub fn rows_leave_what_lines_tell()
    ensures quiet { QuietRowKeepsTelling }
    ensures harvest { OtherHarvestKeepsTelling }
    ensures returns { OtherReturnsKeepTelling }
    ensures own { HarvestKeepsTelling }
{}

/// A harvest that ends a request tells of the first that waits; where it stalled, of those behind it too.
pub fn a_harvest_tells_of_the_first()
    ensures ends { HarvestTells }
    ensures stalls { StallTells }
{}

/// A transfer that is accepted waits, where it is one of the endpoint.
pub fn an_accepted_transfer_waits()
    ensures own { AcceptedKeepsTelling }
    ensures other { OtherAcceptedKeepsTelling }
{}

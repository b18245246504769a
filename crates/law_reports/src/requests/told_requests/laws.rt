ghost use Rattle.law_reports.specs.requests.told_requests.Steps.{NoneIsTold, LineIsTold, OtherLineIsTold, DoneIsTold, HaltIsTold, BehindAreTold, StalledAreTold, OthersStay, OthersBehindStay, RefusalStays, WindowsHaveFront, WindowsGrow};
ghost use Rattle.law_reports.specs.requests.told_requests.Closing.{ClosingTellsActed};
ghost use Rattle.law_reports.specs.requests.told_requests.AskedLaws.{EventKeepsRequests, CommandTakesRequests, TickTakesRequests, MomentsTakeRequests, MomentsAsk, AsksStay};
ghost use Rattle.law_reports.specs.requests.told_requests.Rows.{QuietRowsKeepLines, OtherHarvestsStay, OtherReturnsStay, HarvestGoesOn, HarvestEnds, HarvestStalls};
ghost use Rattle.law_reports.specs.requests.told_requests.Waiting.{TransferAddsWaiting, QuietRowsKeepWaiting, OtherHarvestKeepsWaiting, OtherReturnsKeepWaiting, HarvestKeepsWaiting, HarvestEndsOne, HarvestStallsAll, StallHasWindows};
ghost use Rattle.law_reports.specs.requests.told_requests.Windows.{TransferAddsWindow, EventKeepsWindows, CommandKeepsTold, ActsMayGrow};
ghost use Rattle.law_reports.specs.requests.told_requests.Claims.{ReportNumbers, ReportTells, ReportCounts, ReportOfRequests};

/// Where an endpoint has no line, none of its requests is reported. A line more tells of the first that is left, and leaves one less; a line of another
/// endpoint, or of a command that is refused, leaves them.
pub fn a_line_tells_of_the_first_that_is_left()
    ensures none { NoneIsTold }
    ensures one { LineIsTold }
    ensures other { OtherLineIsTold }
{}

/// A driver adds the line of a request that is done, which was acted on once and whose bytes are all its data, or of one that halted, whose bytes begin them.
pub fn a_driver_tells_of_a_request()
    ensures done { DoneIsTold }
    ensures halted { HaltIsTold }
{}

/// Each request that is queued behind a stalled one has a line without bytes.
pub fn requests_behind_a_stalled_one_are_told()
    ensures some { BehindAreTold }
    ensures all { StalledAreTold }
{}

/// What a driver tells of others leaves what is told of an endpoint's requests.
pub fn lines_of_others_leave_what_is_told()
    ensures lines { OthersStay }
    ensures behind { OthersBehindStay }
    ensures refusals { RefusalStays }
{}

/// The rows of a driver but harvests and returns of endpoints add no line; those of other endpoints leave what was told.
pub fn other_rows_leave_what_is_told()
    ensures quiet { QuietRowsKeepLines }
    ensures harvests { OtherHarvestsStay }
    ensures returns { OtherReturnsStay }
{}

/// A harvest of the endpoint tells nothing where its request goes on; else of the first request that is left, and where that stalled of those behind it too.
pub fn a_harvest_tells_of_requests()
    ensures goes_on { HarvestGoesOn }
    ensures ends { HarvestEnds }
    ensures stalls { HarvestStalls }
{}

/// A transfer more of an endpoint is one more that isn't reported; rows of the driver but harvests of the endpoint and its return leave how many there are.
pub fn other_rows_leave_what_waits()
    ensures transfer { TransferAddsWaiting }
    ensures quiet { QuietRowsKeepWaiting }
    ensures harvests { OtherHarvestKeepsWaiting }
    ensures returns { OtherReturnsKeepWaiting }
{}

/// A harvest that ends a transfer leaves one less, and that of a stall none of those behind it; where as many windows are left as transfers wait, each of those
/// has one.
pub fn a_harvest_leaves_what_waits()
    ensures goes_on { HarvestKeepsWaiting }
    ensures ends { HarvestEndsOne }
    ensures stalls { HarvestStallsAll }
    ensures windows { StallHasWindows }
{}

/// The requests that were told of are the first, one for each line. The acts of those behind them may be more, and requests more may be asked.
pub fn windows_that_are_left_may_grow()
    ensures front { WindowsHaveFront }
    ensures later { WindowsGrow }
{}

/// The windows of a driver's requests stay in each of its events, and a command has windows more at most, which aren't told of. Neither is an act in a window
/// behind those.
pub fn windows_of_a_driver_grow()
    ensures transfer { TransferAddsWindow }
    ensures event { EventKeepsWindows }
    ensures command { CommandKeepsTold }
    ensures acts { ActsMayGrow }
{}

/// The closing line of a control endpoint tells how often its device acted on a request.
pub fn closing_tells_acted()
    ensures { ClosingTellsActed }
{}

/// An event leaves what was asked. A command with a later number than those of the lines before it is one more of them: where it is accepted, a request of it is
/// that of the driver's newest transfer.
pub fn a_command_takes_its_request()
    ensures event { EventKeepsRequests }
    ensures command { CommandTakesRequests }
    ensures tick { TickTakesRequests }
    ensures stay { AsksStay }
{}

/// So at each moment of a script whose numbers rise, the requests of a control endpoint's transfers begin those that the script has for it by the report, and
/// once no order is left they are all of them.
pub fn requests_are_those_of_the_script()
    ensures taken { MomentsTakeRequests }
    ensures asked { MomentsAsk }
{}

/// What a report claims of the requests of a control endpoint, each from its premise: their number and order, what its lines tell, and what is counted.
pub fn a_report_tells_of_requests()
    ensures numbered { ReportNumbers }
    ensures lines { ReportTells }
    ensures counted { ReportCounts }
    ensures right { ReportOfRequests }
{}

//! The laws.
ghost use Rattle.law_reports.specs.requests.driver_requests.Requests.{TransfersAreTold, RequestsAreFound, ChainedHaveQtds};
ghost use Rattle.law_reports.specs.requests.driver_requests.Rows.{RequestsStay, RequestsGoOn, RequestComes, RequestEnds, AcceptedRequestsStay, AcceptedRequestComes, OpenKeepsRequests, CancelKeepsRequests, EachRowKeepsRequests, EachRowKeepsOrder, OrderGrows, OrderStays};
ghost use Rattle.law_reports.specs.requests.driver_requests.Behind.{NoneEarlier, FirstGoes, RowsLeaveBehind, AcceptedBehind, AcceptedBeside, ToldBehind};

/// Where each run of blocks has one owner and what stands in memory is the driver's, the requests that are its transfers are told apart by the places of
/// their SETUPs, and no qTD of another queue head begins one of them. Transfers whose qTDs are chained have some.
pub fn requests_are_transfers()
    ensures told { TransfersAreTold }
    ensures found { RequestsAreFound }
    ensures qtds { ChainedHaveQtds }
{}

/// They stay so while a row of the driver tells the endpoint and its transfers alike and gives back none that isn't done, and while the walk goes on; one
/// more that is laid out comes behind them, and the first goes once another is under way.
pub fn rows_keep_requests()
    ensures row { RequestsStay }
    ensures step { RequestsGoOn }
    ensures comes { RequestComes }
    ensures ends { RequestEnds }
{}

/// Each row of the driver tells an endpoint and its transfers alike, with the one that it gives back, unless it gives that endpoint back; and each row leaves
/// the order of an endpoint's requests.
pub fn each_row_keeps_requests()
    ensures requests { EachRowKeepsRequests }
    ensures order { EachRowKeepsOrder }
{}

/// A transfer that is accepted leaves them, and so do an endpoint that is opened and one that is cancelled; a request comes behind those of its endpoint.
pub fn an_accepted_request_comes_last()
    ensures others { AcceptedRequestsStay }
    ensures opens { OpenKeepsRequests }
    ensures cancels { CancelKeepsRequests }
    ensures comes { AcceptedRequestComes }
{}

/// The transfers of an endpoint are its requests in their order, also with one that is accepted, and once anything was accepted of another endpoint.
pub fn requests_stay_in_order()
    ensures grows { OrderGrows }
    ensures others { OrderStays }
{}

/// So they are behind earlier ones: where none is earlier, once the first of the queue goes to the earlier ones, after each row of the driver, and with what
/// is accepted; and what is told of the endpoint are the windows of the earlier ones, then those of the queue's requests.
pub fn requests_stay_behind_earlier_ones()
    ensures none { NoneEarlier }
    ensures goes { FirstGoes }
    ensures rows { RowsLeaveBehind }
    ensures grows { AcceptedBehind }
    ensures others { AcceptedBeside }
    ensures told { ToldBehind }
{}

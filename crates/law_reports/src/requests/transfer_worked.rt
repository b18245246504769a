//! Worked records, which the check computes.
ghost use Rattle.law_devices.specs.request_stores.Published.{without_first};
ghost use Rattle.law_devices.specs.ring_requests.Samples.{asked};
ghost use Rattle.claims_world.specs.Requests.{no_windows};
ghost use Rattle.law_reports.specs.requests.driver_requests.Samples.{driver, requests, begun};
ghost use Rattle.law_reports.specs.requests.QueueChanges.{lines_behind};
ghost use Rattle.law_reports.specs.requests.Records.{AreRecords};
ghost use Rattle.law_reports.specs.requests.TransferSamples.{courses, both, one, none_gone as NoneGone, first_acted as FirstActed, first_done as FirstDone, then_next as ThenNext};

/// Of two requests that are published nothing is recorded before the first is begun. Once it is done its window has the one act of the device, also while the second
/// is under way, and once the first is closed.
pub fn two_requests_are_recorded()
    ensures begun { AreRecords driver asked (courses requests begun) (λ n. both) NoneGone no_windows }
    ensures done { AreRecords driver asked (courses requests FirstDone) (λ n. both) NoneGone FirstActed }
    ensures next { AreRecords driver asked (courses requests ThenNext) (λ n. both) NoneGone FirstActed }
    ensures closed { AreRecords driver asked (courses (without_first requests) (lines_behind requests ThenNext)) (λ n. one) NoneGone FirstActed }
{}

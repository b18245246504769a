//! Worked lines, which the check computes.
ghost use Rattle.std.specs.Prelude.{◌≡◌, [], ◌∷◌};
ghost use Rattle.law_request.specs.Samples.{descriptor};
ghost use Rattle.law_devices.specs.ring_requests.Samples.{asked};
ghost use Rattle.claims_world.specs.Requests.{no_windows};
ghost use Rattle.law_reports.specs.requests.driver_requests.Samples.{driver, requests, begun};
ghost use Rattle.law_reports.specs.requests.TransferSamples.{both, first_acted as FirstActed};
ghost use Rattle.law_reports.specs.requests.Telling.{IsTelling};
ghost use Rattle.law_reports.specs.requests.ReportSamples.{name, whole, told, stalled};

/// Two requests wait before the first is begun. The line of the first tells of its window, in which the device acted once, and of the whole descriptor; then the second
/// waits, until a line tells that it was answered with STALL.
pub fn lines_tell_of_two_requests()
    ensures none { IsTelling driver asked 0 name whole no_windows [] (0 ∷ 1 ∷ []) }
    ensures first { IsTelling told asked 0 name whole FirstActed (0 ∷ []) (1 ∷ []) }
    ensures both { IsTelling stalled asked 0 name whole FirstActed (0 ∷ 1 ∷ []) [] }
    ensures bytes { whole (asked 0) ≡ descriptor }
{}

//! Worked rows of the definitions, which the check computes.
ghost use Rattle.std.specs.Prelude.{◌≡◌, length};
ghost use Rattle.drv_table.specs.Words.{request_stages};
ghost use Rattle.law_request.specs.Windows.{IsRequest};
ghost use Rattle.law_request.specs.Host.{Status};
ghost use Rattle.law_reports.specs.requests.request_bytes.Held.{RequestIsHeld};
ghost use Rattle.law_devices.specs.ring_requests.Laid.{place_at};
ghost use Rattle.law_reports.specs.requests.request_bytes.Fresh.{request_places};
ghost use Rattle.law_reports.specs.requests.request_bytes.Samples.{written, memory, notes};

/// A request that sends five bytes: it has three qTDs, its setup bytes stand in the one buffer, and its data in the other.
pub fn a_request_that_sends_five_bytes()
    ensures is { IsRequest written }
    ensures stages { length (request_stages written.setup) ≡ 3 }
    ensures places { place_at (request_places notes 0 written) Status ≡ 64 }
    ensures held { RequestIsHeld memory notes 0 written }
{}

//! Worked windows, which the check computes.
ghost use Rattle.std.specs.Prelude.{◌≡◌, ◌*◌, true, false, [], ◌∷◌, Some, None};
ghost use Rattle.dev_control.specs.Stages.{opened};
ghost use Rattle.law_request.specs.Samples.{get_device as GetDevice, get_configuration as GetConfiguration};
ghost use Rattle.claims_world.specs.Requests.{setup_at, acted_between, no_windows, numbers_of};
ghost use Rattle.law_devices.specs.ring_requests.Samples.{both_parts as BothParts, begun as Begun, after as After, then_begun as ThenBegun, is_only as IsOnly, is_both as IsBoth};
ghost use Rattle.law_reports.specs.requests.world_requests.Recording.{AreTransfers, IsRecorded};
ghost use Rattle.law_reports.specs.requests.world_requests.Samples.{driver, two_requests as TwoRequests, asked, then_sends, then_acts};

/// The SETUP of a request is found by the place of its first qTD, unless the request was given back; nothing is found where none begins.
pub fn a_request_is_found_by_its_place()
    ensures second { setup_at driver (32 * 140) ≡ Some 1 }
    ensures third { setup_at driver (32 * 132) ≡ Some 3 }
    ensures data { setup_at driver (32 * 141) ≡ None }
    ensures bytes { setup_at driver (32 * 150) ≡ None }
{}

/// A device acts where it is done with a request that it wasn't done with before.
pub fn a_device_acts_once()
    ensures acts { acted_between (asked GetDevice.setup false) (asked GetDevice.setup true) ≡ GetDevice.setup ∷ [] }
    ensures again { acted_between (asked GetDevice.setup true) (asked GetDevice.setup true) ≡ [] }
    ensures begins { acted_between (asked GetDevice.setup true) (asked GetConfiguration.setup false) ≡ [] }
    ensures first { acted_between (opened 64 0) (asked GetDevice.setup false) ≡ [] }
{}

/// The SETUP of a request opens its window, in which its device acts, also where that SETUP is sent again; the SETUP of the next one closes it.
pub fn windows_open_and_close()
    ensures opens { (then_sends 1 no_windows).opened 0 ≡ Some 1 }
    ensures beside { (then_sends 1 no_windows).opened 1 ≡ None }
    ensures acts { (then_sends 1 (then_acts GetDevice.setup (then_sends 1 no_windows))).acts 1 ≡ GetDevice.setup ∷ [] }
    ensures next { (then_acts GetDevice.setup (then_sends 3 (then_acts GetDevice.setup (then_sends 1 no_windows)))).acts 1 ≡ GetDevice.setup ∷ [] }
    ensures later { (then_acts GetDevice.setup (then_sends 3 (then_acts GetDevice.setup (then_sends 1 no_windows)))).acts 3 ≡ GetDevice.setup ∷ [] }
    ensures before { (then_acts GetDevice.setup no_windows).acts 0 ≡ [] }
{}

/// The two requests of ring_requests' sample are transfers of such a driver, before the first is begun, and once the second is and the first was given back;
/// nothing is recorded of them at first.
pub fn two_requests_are_transfers()
    ensures first { AreTransfers (TwoRequests false) IsOnly IsBoth (λ n. Begun) BothParts (λ n. 0) (λ n i. i) }
    ensures second { AreTransfers (TwoRequests true) IsOnly IsBoth (λ n. After ThenBegun) BothParts (λ n. 0) (λ n i. i) }
    ensures recorded { IsRecorded IsOnly IsBoth (λ n. 0) (λ n i. i) (λ n. Begun) no_windows }
    ensures numbers { numbers_of (TwoRequests true) 0 ≡ 0 ∷ 1 ∷ [] }
{}

//! Worked requests, which the check computes.
ghost use Rattle.std.specs.Prelude.{◌≡◌, ◌==◌, [], ◌∷◌, ◌++◌};
ghost use Rattle.usb_base.specs.declared.endpoints.EndCause.TheVariants as Ends;
ghost use Rattle.hc_copy.specs.Overlay.{advanced};
ghost use Rattle.law_request.specs.Host.{Setup, Done, Halted};
ghost use Rattle.law_request.specs.Samples.{told, tells, good, descriptor, token_lost as TokenLost, get_device as GetDevice};
ghost use Rattle.law_ring.specs.Hand.{Empty};
ghost use Rattle.law_devices.specs.ring_requests.Samples.{queue, parts, request, both_parts as BothParts, requests, after, first_done as FirstDone, then_begun as ThenBegun};
ghost use Rattle.law_devices.specs.ring_requests.Samples.{second_setup as SecondSetup, done_queue as DoneQueue, done_parts as DoneParts, next_queue as NextQueue, next_parts as NextParts, device_in as DeviceIn, is_only as IsOnly, is_both as IsBoth};
ghost use Rattle.law_devices.specs.ring_requests.Windows.{IsLaid, AreLaid, IsQueue, AreSent, AreHigh, Transaction, Advance};

/// A device descriptor's request stands in memory as a SETUP, a data and a status qTD, before its first transaction.
/// Its queue head is of high speed.
pub fn a_descriptor_is_asked_for()
    ensures laid { IsLaid request Empty parts 32 queue }
    ensures high { AreHigh (λ n. n == 32) parts }
{}

/// The request of a configuration descriptor stands behind it.
pub fn another_stands_behind_it()
    ensures laid { AreLaid requests Empty BothParts 32 queue }
    ensures sent { AreSent IsOnly IsOnly IsBoth }
{}

/// The first request is done after its three transactions, and the queue head goes on to the second, which the device stalls: it acted once.
pub fn the_second_is_begun_after_the_first()
    ensures lost { told ((after (Transaction good ∷ Transaction TokenLost ∷ Transaction good ∷ Transaction good ∷ [])).line 0) ≡ tells Done descriptor (GetDevice.setup ∷ []) }
    ensures begun { told ((after ThenBegun).line 1) ≡ tells Setup [] [] }
    ensures under { (after ThenBegun).under ≡ 1 }
    ensures done { told ((after (ThenBegun ++ Transaction good ∷ Transaction good ∷ [])).line 0) ≡ tells Done descriptor (GetDevice.setup ∷ []) }
    ensures stalled { told ((after (ThenBegun ++ Transaction good ∷ Transaction good ∷ [])).line 1) ≡ tells (Halted Ends.Stall) [] [] }
{}

/// So memory shows it: once the first is done the queue head leads to the SETUP of the second, and once it advanced it works on that.
pub fn memory_shows_the_second_behind_the_first()
    ensures done { IsQueue requests (after FirstDone) Empty DoneParts 32 (DeviceIn 0 (after FirstDone)) }
    ensures advanced { NextQueue ≡ advanced DoneQueue 160 SecondSetup }
    ensures next { IsQueue requests (after ThenBegun) Empty NextParts 32 (DeviceIn 1 (after ThenBegun)) }
{}

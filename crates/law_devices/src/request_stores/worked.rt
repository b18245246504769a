//! A worked publication, which the check computes.
ghost use Rattle.usb_base.specs.declared.endpoints.EndCause.TheVariants as Ends;
ghost use Rattle.std.specs.Prelude.{◌≡◌, [], ◌∷◌};
ghost use Rattle.law_request.specs.Host.{Data, Done, Halted};
ghost use Rattle.law_request.specs.Samples.{told, tells, descriptor, get_device as GetDevice, get_configuration as GetConfiguration};
ghost use Rattle.law_ring.specs.Hand.{Empty};
ghost use Rattle.law_devices.specs.ring_requests.Samples.{queue, is_only as IsOnly};
ghost use Rattle.law_devices.specs.ring_requests.Windows.{AreLaid};
ghost use Rattle.dev_control.specs.Stages.{opened};
ghost use Rattle.law_request.specs.Samples.{described};
ghost use Rattle.law_devices.specs.ring_requests.Windows.{sent_at, HasEnded};
ghost use Rattle.law_devices.specs.ring_requests.Resting.{IsAtRest, IsFirstStore};
ghost use Rattle.law_devices.specs.request_stores.Samples.{waiting_parts as WaitingParts, asked_parts as AskedParts, ended_parts as EndedParts, first_ended as FirstEnded, device_at as DeviceAt};
ghost use Rattle.law_devices.specs.request_stores.Published.{IsLend, IsNextRequest};
ghost use Rattle.law_devices.specs.request_stores.Samples.{first_only as FirstOnly, firsts, one_parts as OneParts, lent_parts as LentParts, both_now as BothNow};
ghost use Rattle.law_devices.specs.request_stores.Samples.{second_places as SecondPlaces, both, first_begun as FirstBegun, then_both as ThenBoth};

/// A device descriptor's request stands in memory with a tail behind it.
pub fn a_tail_stands_behind_a_request()
    ensures { AreLaid FirstOnly Empty OneParts 32 queue }
{}

/// The data and the status qTD of a configuration descriptor's request are lent, with a new tail, and then its SETUP is stored into the old tail.
pub fn another_is_published_there()
    ensures lend { IsLend IsOnly firsts OneParts LentParts 32 }
    ensures next { IsNextRequest FirstOnly GetConfiguration SecondPlaces (BothNow 32) }
    ensures laid { AreLaid both Empty BothNow 32 queue }
{}

/// It is published while the first is at its data: the first is done nonetheless, and then the second is begun, which the device stalls.
pub fn the_first_goes_on()
    ensures under { told (FirstBegun.line 0) ≡ tells Data [] [] }
    ensures done { told (ThenBoth.line 0) ≡ tells Done descriptor (GetDevice.setup ∷ []) }
    ensures stalled { told (ThenBoth.line 1) ≡ tells (Halted Ends.Stall) [] [] }
{}

/// The queue head leads to an inactive qTD where the SETUP of the device descriptor's request will stand, and once that is stored it asks this one. Once it
/// is done, the queue is at rest with the tail at its end.
pub fn a_request_is_asked_from_rest_to_rest()
    ensures waits { IsAtRest described (opened 64 0) 64 Empty WaitingParts 32 (DeviceAt (opened 64 0)) }
    ensures stored { IsFirstStore FirstOnly 64 (AskedParts 32) }
    ensures ended { HasEnded (sent_at FirstOnly 0) EndedParts 32 }
    ensures rests { IsAtRest described (FirstEnded.line 0).device 160 Empty EndedParts 32 (DeviceAt (FirstEnded.line 0).device) }
{}

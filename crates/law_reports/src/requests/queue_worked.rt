//! A worked queue, which the check computes.
ghost use Rattle.law_ring.specs.Hand.{Empty};
ghost use Rattle.dev_control.specs.Stages.{opened};
ghost use Rattle.law_request.specs.Samples.{get_configuration as GetConfiguration};
ghost use Rattle.law_devices.specs.ring_requests.Samples.{second_setup as SecondSetup};
ghost use Rattle.law_devices.specs.ring_requests.Windows.{sent_at, HasEnded};
ghost use Rattle.law_devices.specs.ring_requests.Resting.{IsStopped};
ghost use Rattle.law_devices.specs.request_stores.Samples.{waiting_parts as WaitingParts, asked_parts as AskedParts, ended_parts as EndedParts, lent_parts as LentParts, first_only as FirstOnly, second_places as SecondPlaces, both as Both, device_at as DeviceAt};
ghost use Rattle.law_reports.specs.requests.Coming.{IsComing};
ghost use Rattle.law_reports.specs.requests.Courses.{IsResting, CoursesStand};
ghost use Rattle.law_reports.specs.requests.QueueSamples.{is_one as IsOne, the_device as TheDevice, waits, asks, one, halted_parts as HaltedParts, behind_parts as BehindParts, mended_parts as MendedParts, halted, behind, goes_on as GoesOn, done_parts as DoneParts};

/// A queue waits at its end, and asks for the device descriptor once its SETUP is stored there.
pub fn a_queue_waits_and_asks()
    ensures waits { CoursesStand TheDevice IsOne waits WaitingParts Empty 0 }
    ensures asks { CoursesStand TheDevice IsOne asks AskedParts Empty 0 }
{}

/// A halted queue waits; a request whose SETUP is stored at its end waits behind the halt, and is asked once the queue head leads to it and isn't halted.
pub fn a_request_waits_behind_a_halt()
    ensures stopped { IsStopped HaltedParts 32 }
    ensures halted { CoursesStand TheDevice IsOne halted HaltedParts Empty 0 }
    ensures rests { IsResting one 256 (opened 64 0) Empty BehindParts 32 (DeviceAt (opened 64 0)) }
    ensures behind { CoursesStand TheDevice IsOne behind BehindParts Empty 0 }
    ensures goes_on { CoursesStand TheDevice IsOne GoesOn MendedParts Empty 0 }
{}

/// The status of the first request has ended, where another stands behind it and where none does.
pub fn the_first_request_has_ended()
    ensures several { HasEnded (sent_at Both 0) DoneParts 32 }
    ensures only { HasEnded (sent_at FirstOnly 0) EndedParts 32 }
{}

/// Once its data, its status and its setup bytes are lent, the second request is coming.
pub fn the_second_request_is_coming()
    ensures { IsComing FirstOnly GetConfiguration SecondPlaces 160 256 SecondSetup (LentParts 32) }
{}

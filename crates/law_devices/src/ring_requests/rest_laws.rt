//! A queue while no request is under way.
ghost use Rattle.std.specs.Prelude.{ℕ, Option};
ghost use Rattle.claims_report.specs.ControlSides.{Device};
ghost use Rattle.law_devices.specs.ring_requests.Resting.{EffectKeepsRest, DoneRests, HaltRests, QueueGrows, RestIsSpared, AloneIsSpared, StoreSparesRest, LendSparesRest, ReleaseSparesRest, LinkSparesRest, MendSparesRest, MendedRests};

use usb_base::Wire;

/// Each event of the walk leaves a queue at rest at rest, with all its structures and the device as they were, whatever else the walk meets: nothing is
/// asked of it. No other queue head of the ring has its endpoint.
pub fn a_queue_at_rest_stays_so<W: Wire>()
    ensures { (device : W → ℕ → ℕ → Option Device) → EffectKeepsRest W.transacts device }
{}

/// Where memory shows that the last request of a queue has ended, the queue is at rest, and the device acted on that request exactly once. Where its queue
/// head is halted it is at rest too, and the device is left as by the request under way.
pub fn a_queue_comes_to_rest()
    ensures done { DoneRests }
    ensures halted { HaltRests }
{}

/// The store that makes the qTD at the end of a queue at rest the SETUP of a request that is laid out begins a queue that asks that one, where the queue
/// head isn't halted. The window opens on the device as it was left.
pub fn queue_grows()
    ensures { QueueGrows }
{}

/// What is written beside a queue at rest leaves it so: a store over a qTD, a lend, structures that are given back, a link that is stored in a queue head,
/// which may be its own, or another queue head that is mended. Where its own is mended, it is at rest with the qTD to which that leads at its end.
pub fn a_queue_at_rest_is_spared()
    ensures rest { RestIsSpared }
    ensures alone { AloneIsSpared }
    ensures store { StoreSparesRest }
    ensures lend { LendSparesRest }
    ensures release { ReleaseSparesRest }
    ensures link { LinkSparesRest }
    ensures mend { MendSparesRest }
    ensures mended { MendedRests }
{}

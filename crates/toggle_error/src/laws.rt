//! What follows of the settle table.
ghost use Rattle.std.specs.Prelude.{◌≡◌, ◌↔◌};
ghost use Rattle.toggle_error.specs.Halts.{RanOut, IsStalled, IsBabble};
ghost use Rattle.toggle_error.specs.Settle.{outcome_of, settled};

use crate::host::{HostSide, Outcome};
use usb_base::{Ask, EndCause, Reply};

/// Each halt comes exactly for its cause: the last counted error, a STALL, or expected data that is too long.
pub fn halts(ask: &Ask, sent: u16, last: bool, reply: &Reply, host: &HostSide)
    ensures error { (outcome_of ask.now sent last reply.now host.now ≡ Outcome.Halt EndCause.Error)
        ↔ RanOut host.now (settled ask.now sent last reply.now host.now) }
    ensures stall { (outcome_of ask.now sent last reply.now host.now ≡ Outcome.Halt EndCause.Stall)
        ↔ IsStalled ask.now reply.now }
    ensures babble { (outcome_of ask.now sent last reply.now host.now ≡ Outcome.Halt EndCause.Babble)
        ↔ IsBabble ask.now reply.now host.now }
{}

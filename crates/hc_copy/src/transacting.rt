ghost use Rattle.std.specs.Prelude.{◌≡◌, ◌<◌, ◌≤◌, length};
ghost use Rattle.usb_base.specs.Limits.{longest_qtd};
ghost use Rattle.hc_copy.specs.Visits.{IsHeld};
ghost use Rattle.hc_copy.specs.Planning.{CanBeMade};
ghost use Rattle.hc_copy.specs.Overlay.{settled_copy};
ghost use Rattle.hc_copy.specs.Transacting.{call_in, outcome_in, host_after, copy_after};

use crate::held::{Held, Transaction};
use crate::overlay::settled;
use toggle_error::{HostSide, Outcome};
use transactions::exchange;
use usb_base::{Reply, Wire};

/// The copy has what its transaction left and came to.
#[inline(always)]
pub fn settle(held: &mut Held, host: &HostSide, outcome: Outcome)
    requires held { IsHeld held.old }
    requires errors { host.now.cerr < 4 }
    requires left { host.now.left ≤ longest_qtd }
    ensures copy { held.new ≡ settled_copy host.now outcome held.old }
    ensures held { IsHeld held.new }
{
    held.queue_head = settled(&held.queue_head, host);
    held.settled = Some(outcome);
}

/// Makes a transaction that sends `out`, and puts what it came to into the copy; what the host heard stands in `reply`. `last` tells that
/// a complete-split has the highest bit of its C-mask.
#[tactic(auto, using(crate::proofs::Errors::errors_left))]
#[inline(always)]
pub fn transact<W: Wire>(
    wire: &mut W,
    t: &Transaction,
    last: bool,
    out: &[u8],
    held: &mut Held,
    reply: &mut Reply,
) -> Outcome
    requires held { IsHeld held.old }
    requires can { CanBeMade t.now }
    requires out { length out.now ≡ t.now.bytes }
    ensures made { W.transacts wire.old (call_in t.now out.now last).ask (call_in t.now out.now last).out reply.new wire.new }
    ensures outcome { result ≡ outcome_in t.now out.now last reply.new }
    ensures copy { held.new ≡ copy_after t.now out.now last reply.new held.old }
    ensures held { IsHeld held.new }
{
    let mut host = t.host;
    let outcome = exchange(wire, &t.split, &t.pipe, &mut host, last, out, reply);
    settle(held, &host, outcome);
    outcome
}

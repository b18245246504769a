ghost use Rattle.std.specs.Prelude.{◌≡◌, ◌≢◌, ℕ, ◌≤◌, [], length};
ghost use Rattle.usb_base.specs.declared.packets.EpKind.TheVariants.{Iso};
ghost use Rattle.transactions.specs.Calls.{call_of, moving_of, got_of, Exchanges};

use crate::pipe::Pipe;
use crate::runs::{ask, sent, started};
use toggle_error::{HostSide, Outcome};
use usb_base::{Pid, Reply, Split, Wire};

/// The number of bytes that an acknowledgement moves.
fn moving(split: &Split, pipe: &Pipe, host: &HostSide, out: &[u8]) -> u16
    requires size { length out.now ≤ 1024 }
    requires left { length out.now ≤ host.now.left }
    ensures value { result ≡ moving_of split.now pipe.now.pid host.now (length out.now) }
    ensures bound { result ≤ host.now.left }
{
    match split {
        Split::Complete { .. } => started(pipe.pid, host),
        _ => out.len() as u16,
    }
}

/// Makes one transaction of `pipe`, split so, which sends `out` (empty for an IN), and settles its reply, which then stands in `reply` as
/// it was heard: a packet isn't moved on. `last` tells that a complete-split has the highest bit of its C-mask. A plain OUT whose host
/// side is in the ping state goes out as a PING, which sends nothing.
#[inline(always)]
pub fn exchange<W: Wire>(
    wire: &mut W,
    split: &Split,
    pipe: &Pipe,
    host: &mut HostSide,
    last: bool,
    out: &[u8],
    reply: &mut Reply,
) -> Outcome
    requires kind { pipe.now.kind ≢ Iso }
    requires size { length out.now ≤ 1024 }
    requires left { length out.now ≤ host.old.left }
    ensures one { Exchanges W.transacts (call_of split.now pipe.now host.old out.now last) host.old wire.old wire.new reply.new result host.new }
    ensures kept { (host.new.max ≡ host.old.max) × (host.new.left ≤ host.old.left) }
{
    let bytes = moving(split, pipe, host, out);
    let ask = ask(split, pipe, host);
    wire.transact(&ask, sent(&ask.split, ask.pid, out), reply);
    host.settle(&ask, bytes, last, reply)
}

/// The bytes of a reply that were received: those of an IN that moved, else none.
pub fn received<'a>(pid: Pid, outcome: Outcome, reply: &'a Reply) -> &'a [u8]
    ensures bytes { result.now ≡ got_of pid outcome reply.now }
    ensures bound { length result.now ≤ 1024 }
{
    match (pid, outcome, reply) {
        (Pid::In, Outcome::Moved(_), Reply::Bytes(_, bytes)) => bytes.as_slice(),
        _ => &[],
    }
}

ghost use Rattle.std.specs.Prelude.{◌≡◌, ◌≢◌, ℕ, ◌≤◌, [], length};
ghost use Rattle.usb_base.specs.declared.packets.EpKind.TheVariants.{Iso};
ghost use Rattle.transactions.specs.Asks.{start_split, complete_split, ask_of, iso_ask, sends};
ghost use Rattle.transactions.specs.Calls.{high_call, start_call, complete_call, complete_sent, got_of, Transacts, IsoTransacts};
ghost use Rattle.transactions.specs.Prices.{price_of};

use crate::pipe::{IsoResult, Pipe, Result3};
use crate::pricing::{price, token};
use toggle_error::{HostSide, Outcome};
use usb_base::{Ask, Packet, Pid, Ps, Reply, Split, Wire, reply_to};

/// The ask of a transaction.
pub(crate) fn ask(split: &Split, pipe: &Pipe, host: &HostSide) -> Ask
    ensures { result ≡ ask_of split.now pipe.now host.now }
{
    Ask {
        split: *split,
        pid: token(split, pipe, host),
        addr: pipe.addr,
        ep: pipe.ep,
        speed: pipe.speed,
        kind: pipe.kind,
        toggle: host.expected(),
        limit: host.limit(),
    }
}

/// The bytes that go out with a token.
pub(crate) fn sent<'a>(split: &Split, pid: Pid, out: &'a [u8]) -> &'a [u8]
    ensures { result.now ≡ sends split.now pid out.now }
{
    match (split, pid) {
        (Split::Complete { .. }, _) | (_, Pid::In | Pid::Ping) => &[],
        _ => out,
    }
}

/// The bytes of a reply that were received.
fn received(pid: Pid, outcome: Outcome, reply: Reply) -> Packet
    ensures { result ≡ got_of pid outcome reply }
{
    match (pid, outcome) {
        (Pid::In, Outcome::Moved(_)) => match reply {
            Reply::Bytes(_, bytes) => bytes,
            _ => Packet::empty(),
        },
        _ => Packet::empty(),
    }
}

/// One transaction: `ask` with the bytes `out`, its reply settled with `bytes` as the number sent.
fn run<W: Wire>(
    wire: &mut W,
    host: &mut HostSide,
    ask: &Ask,
    out: &[u8],
    bytes: u16,
    last: bool,
    spent: Ps,
) -> Result3
    requires kind { ask.now.kind ≢ Iso }
    requires size { length out.now ≤ 1024 }
    requires sent { bytes ≤ host.old.left }
    ensures one { Transacts W.transacts (record { ask = ask.now; out = out.now; sent = bytes; last = last })
        host.old wire.old wire.new result host.new }
    ensures kept { (host.new.max ≡ host.old.max) × (host.new.left ≤ host.old.left) }
    ensures spent { result.spent ≡ spent }
{
    let reply = reply_to(wire, ask, out);
    let outcome = host.settle(ask, bytes, last, &reply);
    let got = received(ask.pid, outcome, reply);
    Result3 {
        outcome,
        spent,
        got,
    }
}

/// Makes one plain transaction of `pipe`, which sends `out` (empty for an IN), settles its reply and answers its
/// price. An OUT whose host side is in the ping state goes out as a PING, which sends nothing.
pub fn run_high<W: Wire>(wire: &mut W, pipe: &Pipe, host: &mut HostSide, out: &[u8]) -> Result3
    requires kind { pipe.now.kind ≢ Iso }
    requires max { host.old.max ≤ 1024 }
    requires size { length out.now ≤ 1024 }
    requires left { length out.now ≤ host.old.left }
    ensures one { Transacts W.transacts (high_call pipe.now host.old out.now)
        host.old wire.old wire.new result host.new }
    ensures kept { (host.new.max ≡ host.old.max) × (host.new.left ≤ host.old.left) }
    ensures spent { result.spent.0 ≡ price_of Split.Plain pipe.now host.old out.now }
{
    let spent = price(&Split::Plain, pipe, host, out);
    let ask = ask(&Split::Plain, pipe, host);
    run(
        wire,
        host,
        &ask,
        sent(&ask.split, ask.pid, out),
        out.len() as u16,
        false,
        spent,
    )
}

/// Makes one start-split of `pipe`, which sends `out` (empty for an IN), settles its reply and answers its price.
pub fn run_split_start<W: Wire>(
    wire: &mut W,
    pipe: &Pipe,
    host: &mut HostSide,
    out: &[u8],
) -> Result3
    requires kind { pipe.now.kind ≢ Iso }
    requires max { host.old.max ≤ 1024 }
    requires size { length out.now ≤ 1024 }
    requires left { length out.now ≤ host.old.left }
    ensures one { Transacts W.transacts (start_call pipe.now host.old out.now)
        host.old wire.old wire.new result host.new }
    ensures kept { (host.new.max ≡ host.old.max) × (host.new.left ≤ host.old.left) }
    ensures spent { result.spent.0 ≡ price_of (start_split pipe.now) pipe.now host.old out.now }
{
    let split = Split::Start {
        hub: pipe.hub,
        port: pipe.port,
        part: pipe.part,
    };
    let spent = price(&split, pipe, host, out);
    let ask = ask(&split, pipe, host);
    run(
        wire,
        host,
        &ask,
        sent(&ask.split, ask.pid, out),
        out.len() as u16,
        false,
        spent,
    )
}

/// The number of bytes that the start-split of an OUT or SETUP sent.
pub(crate) fn started(pid: Pid, host: &HostSide) -> u16
    ensures value { result ≡ complete_sent pid host.now }
    ensures bound { result ≤ host.now.left }
{
    match pid {
        Pid::Out | Pid::Setup => host.limit(),
        _ => 0,
    }
}

/// Makes one complete-split of `pipe`, settles its reply and answers its price. `last` tells that it has the highest
/// bit of its C-mask.
pub fn run_split_complete<W: Wire>(
    wire: &mut W,
    pipe: &Pipe,
    host: &mut HostSide,
    last: bool,
) -> Result3
    requires kind { pipe.now.kind ≢ Iso }
    requires max { host.old.max ≤ 1024 }
    ensures one { Transacts W.transacts (complete_call pipe.now host.old last)
        host.old wire.old wire.new result host.new }
    ensures kept { (host.new.max ≡ host.old.max) × (host.new.left ≤ host.old.left) }
    ensures spent { result.spent.0 ≡ price_of (complete_split pipe.now) pipe.now host.old [] }
{
    let split = Split::Complete {
        hub: pipe.hub,
        port: pipe.port,
    };
    let spent = price(&split, pipe, host, &[]);
    let ask = ask(&split, pipe, host);
    let bytes = started(pipe.pid, host);
    run(wire, host, &ask, &[], bytes, last, spent)
}

/// Makes one transaction of `pipe`, split so, with `toggle` as its data PID, and answers the reply and the price.
/// The reply of an isochronous transaction is no handshake, and isn't settled here (EHCI 1.0, 4.7).
pub fn run_iso<W: Wire>(
    wire: &mut W,
    split: &Split,
    pipe: &Pipe,
    host: &HostSide,
    toggle: Pid,
    out: &[u8],
) -> IsoResult
    requires max { host.now.max ≤ 1024 }
    requires size { length out.now ≤ 1024 }
    ensures one { IsoTransacts W.transacts (iso_ask split.now pipe.now host.now toggle) out.now
        wire.old wire.new result }
    ensures spent { result.spent.0 ≡ price_of split.now pipe.now host.now out.now }
{
    let spent = price(split, pipe, host, out);
    let ask = Ask {
        toggle,
        ..ask(split, pipe, host)
    };
    let reply = reply_to(wire, &ask, sent(split, ask.pid, out));
    IsoResult { reply, spent }
}

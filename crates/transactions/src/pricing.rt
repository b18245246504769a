ghost use Rattle.std.specs.Prelude.{◌≡◌, ℕ, ◌≤◌, min, length};
ghost use Rattle.usb_base.specs.Cost.{bus_time};
ghost use Rattle.transactions.specs.Asks.{pinged, token_pid, dir_of};
ghost use Rattle.transactions.specs.Prices.{priced_bytes, priced_speed, price_of, price_at};

use crate::pipe::Pipe;
use toggle_error::HostSide;
use usb_base::limits::BYTE_TIMES_OF_MICROFRAME;
use usb_base::{Dir, EpKind, Pid, Ps, Speed, Split, cost};

/// The token of an OUT of this kind in this ping state.
fn out_token(kind: EpKind, ping: bool) -> Pid
    ensures { result ≡ pinged kind ping }
{
    match kind {
        EpKind::Iso => Pid::Out,
        _ if ping => Pid::Ping,
        _ => Pid::Out,
    }
}

/// The token that goes out.
pub(crate) fn token(split: &Split, pipe: &Pipe, host: &HostSide) -> Pid
    ensures { result ≡ token_pid split.now pipe.now.pid (pinged pipe.now.kind host.now.ping) }
{
    match (split, pipe.pid) {
        (Split::Plain, Pid::Out) => out_token(pipe.kind, host.ping),
        _ => pipe.pid,
    }
}

fn direction(pid: Pid) -> Dir
    ensures { result ≡ dir_of pid }
{
    match pid {
        Pid::In => Dir::In,
        _ => Dir::Out,
    }
}

fn bus_speed(split: &Split, speed: Speed) -> Speed
    ensures { result ≡ priced_speed split.now speed }
{
    match split {
        Split::Plain => speed,
        _ => Speed::High,
    }
}

/// The number of bytes that a transaction is priced at.
fn priced(split: &Split, pid: Pid, kind: EpKind, max: u16, out: u16) -> u16
    requires max { max ≤ 1024 }
    requires out { out ≤ 1024 }
    ensures value { result ≡ priced_bytes split.now pid kind max out }
    ensures bound { result ≤ 1024 }
{
    match (split, pid, kind) {
        (Split::Plain, Pid::In, _) => max,
        (Split::Plain, Pid::Setup, _) => 8,
        (Split::Complete { .. }, Pid::In, EpKind::Iso) => u16::min(max, BYTE_TIMES_OF_MICROFRAME),
        (Split::Complete { .. }, Pid::In, _) => max,
        (Split::Complete { .. }, _, _) | (_, Pid::In | Pid::Ping, _) => 0,
        _ => out,
    }
}

/// The price of a transaction of which the number of bytes that it sends is known, and not yet the bytes: `price` of that many.
#[inline(always)]
pub fn price_of_bytes(split: &Split, pipe: &Pipe, host: &HostSide, bytes: u16) -> Ps
    requires max { host.now.max ≤ 1024 }
    requires bytes { bytes ≤ 1024 }
    ensures { result.0 ≡ price_at split.now pipe.now host.now bytes }
{
    let pid = token(split, pipe, host);
    let bytes = priced(split, pid, pipe.kind, host.max, bytes);
    cost(
        bus_speed(split, pipe.speed),
        pipe.kind,
        direction(pid),
        bytes,
    )
}

/// The bus time, in picoseconds, that the controller gives to a transaction of `pipe` that is split so and sends `out`
/// (USB 2.0, 5.11.3).
///
/// An IN is priced at the maximum packet size, whatever comes, a PING at no bytes and a SETUP at 8. A split
/// transaction runs on the host's high-speed bus: a start-split is priced at the bytes that it sends, a
/// complete-split of an IN at the maximum packet size (of an isochronous one at no more than 188), and of an OUT at
/// no bytes.
pub fn price(split: &Split, pipe: &Pipe, host: &HostSide, out: &[u8]) -> Ps
    requires max { host.now.max ≤ 1024 }
    requires out { length out.now ≤ 1024 }
    ensures { result.0 ≡ price_of split.now pipe.now host.now out.now }
{
    let pid = token(split, pipe, host);
    let bytes = priced(split, pid, pipe.kind, host.max, out.len() as u16);
    cost(
        bus_speed(split, pipe.speed),
        pipe.kind,
        direction(pid),
        bytes,
    )
}

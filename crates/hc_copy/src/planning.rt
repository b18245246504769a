ghost use Rattle.std.specs.Prelude.{◌≡◌, ◌≢◌, ◌≤◌, ◌==◌};
ghost use Rattle.usb_base.specs.declared.packets.EpKind.TheVariants.{Iso};
ghost use Rattle.qh_qtd.specs.QueueHead.{IsQhInRange};
ghost use Rattle.hc_copy.specs.Planning.{pid_at, speed_at, queue_pipe, split_at, carries, bytes_out, transaction_at, transaction_of, CanBeMade};

use crate::held::Transaction;
use hc_host_side::host_of;
use qh_qtd::Qh;
use toggle_error::HostSide;
use transactions::{Pipe, price_of_bytes};
use usb_base::{DataPart, DevAddr, EpKind, EpNum, Pid, Speed, Split};

/// The token that a PID code names: 0 is OUT, 1 IN, 2 SETUP (EHCI 1.0, 3.5.3).
pub fn pid_of(code: u8) -> Pid
    ensures { result ≡ pid_at code }
{
    match code {
        0 => Pid::Out,
        1 => Pid::In,
        _ => Pid::Setup,
    }
}

fn speed(eps: u8) -> Speed
    ensures { result ≡ speed_at eps }
{
    match eps {
        0 => Speed::Full,
        1 => Speed::Low,
        _ => Speed::High,
    }
}

/// The endpoint of a queue head (EHCI 1.0, 3.6.2); of which `kind` it is, its schedule tells.
pub fn pipe(queue_head: &Qh, kind: EpKind) -> Pipe
    requires { IsQhInRange queue_head.now }
    ensures { result ≡ queue_pipe kind queue_head.now }
{
    Pipe {
        addr: DevAddr::new(queue_head.addr).unwrap(),
        ep: EpNum::new(queue_head.ep).unwrap(),
        speed: speed(queue_head.eps),
        kind,
        pid: pid_of(queue_head.token.pid),
        hub: DevAddr::new(queue_head.hub).unwrap(),
        port: queue_head.port,
        part: DataPart::All,
    }
}

/// Plain at high speed, else the start-split or the complete-split that the split state tells.
fn split(queue_head: &Qh, pipe: &Pipe) -> Split
    ensures { result ≡ split_at (queue_head.now.eps == 2) queue_head.now.token.split_state pipe.now }
{
    if queue_head.eps == 2 {
        return Split::Plain;
    }
    if queue_head.token.split_state {
        return Split::Complete {
            hub: pipe.hub,
            port: pipe.port,
        };
    }
    Split::Start {
        hub: pipe.hub,
        port: pipe.port,
        part: pipe.part,
    }
}

/// Whether a token carries data of the host.
fn carrying(split: &Split, pid: Pid, ping: bool) -> bool
    ensures { result ≡ carries split.now pid ping }
{
    match (split, pid) {
        (Split::Plain, Pid::Out) => !ping,
        (Split::Plain | Split::Start { .. }, Pid::Setup) => true,
        (Split::Start { .. }, Pid::Out) => true,
        _ => false,
    }
}

/// How many bytes of the buffer go out.
fn sent_bytes(split: &Split, pid: Pid, host: &HostSide) -> u16
    ensures value { result ≡ bytes_out split.now pid host.now }
    ensures max { result ≤ host.now.max }
    ensures left { result ≤ host.now.left }
{
    if carrying(split, pid, host.ping) {
        return host.limit();
    }
    0
}

/// The transaction with its number of bytes and its price.
#[inline(always)]
fn priced(split: Split, pipe: Pipe, host: HostSide) -> Transaction
    requires { host.max ≤ 1024 }
    ensures value { result ≡ transaction_at split pipe host }
    ensures size { result.bytes ≤ 1024 }
    ensures within { result.bytes ≤ host.left }
{
    let bytes = sent_bytes(&split, pipe.pid, &host);
    let price = price_of_bytes(&split, &pipe, &host, bytes);
    Transaction {
        split,
        pipe,
        host,
        bytes,
        price,
    }
}

/// The transaction that comes next for a queue head whose overlay is active. Of which `kind` the endpoint is, its schedule tells; it
/// isn't isochronous.
#[inline(always)]
pub fn next_transaction(queue_head: &Qh, kind: EpKind) -> Transaction
    requires range { IsQhInRange queue_head.now }
    requires kind { kind ≢ Iso }
    ensures value { result ≡ transaction_of kind queue_head.now }
    ensures can { CanBeMade result }
{
    let pipe = pipe(queue_head, kind);
    let host = host_of(&queue_head.token, queue_head.max);
    let split = split(queue_head, &pipe);
    priced(split, pipe, host)
}

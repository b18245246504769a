ghost use Rattle.std.specs.Prelude.{◌≡◌, ◌≤◌, find};
ghost use Rattle.std.specs.List.{list_any};
ghost use Rattle.std.specs.Option.{option_copied};
ghost use Rattle.bus_wire.specs.Fates.{is_unheard};
ghost use Rattle.bus_wire.specs.Fates.{is_bad, is_same_way, is_same_name, is_against};
ghost use Rattle.bus_wire.specs.WhoHeard.{packets_sent, later};
ghost use Rattle.bus_recorder.specs.Recorded.{speaks_of, fate_by, fate_of, fates_of};

use bus_packets::Fates;
use script_types::FateText;
use usb_base::{Ask, EpName, Fate, Pid, Split, Way};

fn are_same_ways(a: Way, b: Way) -> bool
    ensures { result ≡ is_same_way a b }
{
    match (a, b) {
        (Way::In, Way::In) | (Way::Out, Way::Out) | (Way::Ctl, Way::Ctl) => true,
        _ => false,
    }
}

fn are_same_names(a: &EpName, b: &EpName) -> bool
    ensures { result ≡ is_same_name a.now b.now }
{
    a.addr.get() == b.addr.get() && a.num.get() == b.num.get() && are_same_ways(a.way, b.way)
}

fn is_bad(fate: Fate) -> bool
    ensures { result ≡ is_bad fate }
{
    match fate {
        Fate::Good => false,
        Fate::Lost | Fate::Damaged => true,
    }
}

/// Whether a line of the script is against packet `k` of an endpoint, below a translator or on the high-speed bus.
#[tactic(auto, unfolding(crate::specs::Recorded::speaks_of))]
fn speaks_of(fate: &FateText, name: &EpName, below: bool, k: u64) -> bool
    ensures { result ≡ speaks_of name.now below k fate.now }
{
    fate.down == below
        && is_bad(fate.fate)
        && are_same_names(&fate.name, name)
        && fate.k as u64 == k
}

/// Whether some line of the script is against packet `k` of an endpoint.
fn has_line(fates: &[FateText], name: &EpName, below: bool, k: u64) -> bool
    ensures { result ≡ list_any (speaks_of name.now below k) fates.now }
{
    fates.iter().any(|fate| speaks_of(fate, name, below, k))
}

/// Whether packet `k` of an endpoint is lost or damaged, below a translator or on the high-speed bus.
pub fn is_unheard(fates: &[FateText], name: &EpName, below: bool, k: u64) -> bool
    ensures { result ≡ is_unheard fates.now name.now below k }
{
    has_line(fates, name, below, k)
}

/// The line of the script that is against it.
fn line_of<'a>(fates: &'a [FateText], name: &EpName, below: bool, k: u64) -> Option<&'a FateText>
    ensures { option_copied result ≡ find (speaks_of name.now below k) fates.now }
{
    fates.iter().find(|fate| speaks_of(fate, name, below, k))
}

fn fate_by(line: Option<&FateText>) -> Fate
    ensures { result ≡ fate_by (option_copied line.entry) }
{
    match line {
        Some(fate) => fate.fate,
        None => Fate::Good,
    }
}

/// What the script says of packet `k` of an endpoint, below a translator or on the high-speed bus.
fn fate_of(fates: &[FateText], name: &EpName, below: bool, k: u64) -> Fate
    ensures { result ≡ fate_of fates.now name.now below k }
{
    fate_by(line_of(fates, name, below, k))
}

pub fn later(k: u64, n: u64) -> u64
    ensures { result ≡ later k n }
{
    k.saturating_add(n)
}

/// How many packets the host sends before the answer.
pub fn packets_sent(split: &Split, pid: Pid) -> u64
    ensures value { result ≡ packets_sent split.now pid }
    ensures some { 1 ≤ result }
    ensures few { result ≤ 2 }
{
    match (split, pid) {
        (Split::Complete { .. }, _) => 1,
        (Split::Plain | Split::Start { .. }, Pid::Out | Pid::Setup) => 2,
        (Split::Plain | Split::Start { .. }, _) => 1,
    }
}

/// What becomes of the packets of a transaction whose first has number `k`, and of which so many are sent before the answer.
pub fn fates_of(fates: &[FateText], name: &EpName, below: bool, k: u64, sent: u64) -> Fates
    requires some { 1 ≤ sent }
    requires few { sent ≤ 2 }
    ensures { result ≡ fates_of fates.now name.now below k sent }
{
    Fates {
        token: fate_of(fates, name, below, k),
        data: fate_of(fates, name, below, later(k, sent - 1)),
        answer: fate_of(fates, name, below, later(k, sent)),
        acknowledgement: fate_of(fates, name, below, later(k, sent + 1)),
    }
}

ghost use Rattle.std.specs.Prelude.{◌≡◌, ◌↔◌, IsTrue};
ghost use Rattle.hub_keys.specs.Keys.{key_of, direction_of, is_same_direction, is_same_kind, is_same_key};

use usb_base::{Ask, DevAddr, Dir, EpKind, EpNum, Pid};

/// The endpoint half by which a translator finds a start's buffer or entry (USB 2.0, 11.17.1 and 11.24.2.3).
#[derive(Clone, Copy, Debug, PartialEq, Eq)]
pub struct Key {
    /// The address of the full- or low-speed device.
    pub addr: DevAddr,
    /// The number of its endpoint.
    pub ep: EpNum,
    /// In for an IN, out for an OUT or a SETUP: a control endpoint has a key each way.
    pub dir: Dir,
    /// The transfer type of the endpoint.
    pub kind: EpKind,
}

/// The direction of a token.
fn direction(pid: Pid) -> Dir
    ensures { result ≡ direction_of pid }
{
    match pid {
        Pid::In => Dir::In,
        _ => Dir::Out,
    }
}

fn same_direction(a: Dir, b: Dir) -> bool
    ensures { result ≡ is_same_direction a b }
{
    match (a, b) {
        (Dir::In, Dir::In) | (Dir::Out, Dir::Out) => true,
        _ => false,
    }
}

fn same_kind(a: EpKind, b: EpKind) -> bool
    ensures { result ≡ is_same_kind a b }
{
    match (a, b) {
        (EpKind::Control, EpKind::Control)
        | (EpKind::Iso, EpKind::Iso)
        | (EpKind::Bulk, EpKind::Bulk)
        | (EpKind::Interrupt, EpKind::Interrupt) => true,
        _ => false,
    }
}

impl Key {
    /// The key of a split ask.
    pub fn of(ask: &Ask) -> Key
        ensures { result ≡ key_of ask.now }
    {
        Key {
            addr: ask.addr,
            ep: ask.ep,
            dir: direction(ask.pid),
            kind: ask.kind,
        }
    }

    /// Whether this is the other key.
    pub fn is(&self, other: &Key) -> bool
        ensures test { result ≡ is_same_key self.now other.now }
        ensures same { IsTrue result ↔ (self.now ≡ other.now) }
    {
        self.addr.get() == other.addr.get()
            && self.ep.get() == other.ep.get()
            && same_direction(self.dir, other.dir)
            && same_kind(self.kind, other.kind)
    }
}

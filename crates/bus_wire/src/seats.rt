ghost use Rattle.std.specs.Prelude.{◌≡◌, ◌<◌};
ghost use Rattle.bus_wire.specs.Seats.{token_kind, takes_token, column_of, token_kind_at};

use usb_base::{DevAddr, EpKind, EpName, Pid, Way};

/// Whose endpoint one is. Places are counted from 0.
#[derive(Clone, Copy, Debug, PartialEq, Eq)]
pub enum Owner {
    /// The hub at this place among those of the bus.
    Hub(usize),
    /// The device at this place, on the high-speed bus.
    High(usize),
    /// A full- or low-speed device.
    Below {
        /// Its place among the devices.
        device: usize,
        /// The address of its hub.
        hub: DevAddr,
        /// The port of that hub, from 1.
        port: u8,
        /// How many bytes in 36 stuffed bits make its packets longer, 0 to 6 (USB 2.0, 7.1.9).
        stuff: u8,
    },
}

/// An endpoint on the bus.
#[derive(Clone, Copy, Debug, PartialEq, Eq)]
pub struct Seat {
    /// Its name.
    pub name: EpName,
    /// Its transfer type.
    pub kind: EpKind,
    /// Whose it is.
    pub owner: Owner,
}

/// The token of an ask, as far as it tells which endpoint is asked.
#[derive(Clone, Copy, Debug, PartialEq, Eq)]
pub enum TokenKind {
    In,
    /// OUT, or PING.
    Out,
    Setup,
    /// No token that a host asks by.
    Other,
}

/// The kind of a token.
pub fn kind_of_token(pid: Pid) -> TokenKind
    ensures { result ≡ token_kind pid }
{
    match pid {
        Pid::In => TokenKind::In,
        Pid::Out | Pid::Ping => TokenKind::Out,
        Pid::Setup => TokenKind::Setup,
        _ => TokenKind::Other,
    }
}

fn takes(way: Way, kind: TokenKind) -> bool
    ensures { result ≡ takes_token way kind }
{
    match (way, kind) {
        (Way::In, TokenKind::In) | (Way::Out, TokenKind::Out) => true,
        (Way::Ctl, TokenKind::In | TokenKind::Out | TokenKind::Setup) => true,
        _ => false,
    }
}

pub fn column(kind: TokenKind) -> usize
    ensures column { result ≡ column_of kind }
    ensures bound { result < 4 }
{
    match kind {
        TokenKind::In => 0,
        TokenKind::Out => 1,
        TokenKind::Setup => 2,
        TokenKind::Other => 3,
    }
}

pub fn kind_at(column: usize) -> TokenKind
    ensures { result ≡ token_kind_at column }
{
    if column == 0 {
        TokenKind::In
    } else if column == 1 {
        TokenKind::Out
    } else if column == 2 {
        TokenKind::Setup
    } else {
        TokenKind::Other
    }
}

impl Seat {
    ghost use Rattle.bus_wire.specs.Seats.{suits};

    pub fn suits(&self, addr: usize, num: usize, kind: TokenKind) -> bool
        ensures { result ≡ suits self.now.name addr num kind }
    {
        self.name.addr.get() as usize == addr
            && self.name.num.get() as usize == num
            && takes(self.name.way, kind)
    }
}

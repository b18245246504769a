//! What a line says.
use script_types::Event;
use usb_base::{EpKind, Fate, ListOf, Speed, Way};

/// An endpoint as a line names it; it may be one that no line declares.
#[derive(Clone, Copy)]
pub struct Name {
    pub addr: u32,
    pub num: u32,
    pub way: Way,
}

/// Bytes as a line gives them.
#[derive(Drop)]
pub enum Content {
    /// These bytes.
    Given(ListOf<u8>),
    /// So many bytes, byte i being the seed plus i, modulo 256.
    Fill { len: u32, seed: u32 },
}

/// What an endpoint does next.
#[derive(Drop)]
pub enum Answer {
    /// One packet with these bytes.
    Data(ListOf<u8>),
    /// So many bytes in packets of the endpoint's maximum size, byte i being the seed plus i, modulo 256.
    Fill { len: u32, seed: u32 },
    /// NAK so many times (USB 2.0, 8.4.5).
    Nak(u32),
    /// NYET to the next data (USB 2.0, 8.5.1).
    Nyet,
    /// STALL from here on (USB 2.0, 8.4.5).
    Stall,
    /// What stands behind it comes once the endpoint is reset (USB 2.0, 9.4.5).
    Epoch,
    /// The reply to a request with these setup bytes (USB 2.0, 9.3).
    Request { setup: [u8; 8], bytes: ListOf<u8> },
}

/// A full- or low-speed device and the port below which it is.
#[derive(Clone, Copy)]
pub struct Below {
    pub addr: u32,
    pub speed: Speed,
    pub hub: u32,
    pub port: u32,
}

/// An endpoint's declaration; the period is 0 and the transactions in a microframe are 1 where the line has none.
#[derive(Clone, Copy)]
pub struct EpLine {
    pub name: Name,
    pub kind: EpKind,
    pub max: u32,
    pub period: u32,
    pub multi: u32,
}

/// What becomes of a packet.
#[derive(Clone, Copy)]
pub struct FateLine {
    pub name: Name,
    /// Below a translator.
    pub down: bool,
    pub k: u32,
    pub fate: Fate,
}

/// Bytes that are asked for, in qTDs of `by` bytes where the line says it.
#[derive(Clone, Copy)]
pub struct GetLine {
    pub name: Name,
    pub len: u32,
    pub by: Option<u32>,
}

/// Bytes that are sent, in qTDs of `by` bytes where the line says it.
#[derive(Drop)]
pub struct PutLine {
    pub name: Name,
    pub content: Content,
    pub by: Option<u32>,
}

/// A request: its eight setup bytes, and the bytes of its data stage where the line has any.
#[derive(Drop)]
pub struct ControlLine {
    pub addr: u32,
    pub setup: [u8; 8],
    pub bytes: Option<ListOf<u8>>,
}

/// Isochronous descriptors; the bytes of a slot and the first of them are 0 for an IN.
#[derive(Clone, Copy)]
pub struct IsoLine {
    pub name: Name,
    pub count: u32,
    pub len: u32,
    pub seed: u32,
}

/// What a line says.
#[derive(Drop)]
pub enum Statement {
    /// The words of memory.
    Mem(u32),
    /// A hub's address, the number of its ports, and whether each has a translator of its own (USB 2.0, 11.14).
    Hub(u32, u32, bool),
    /// The address of a high-speed device.
    DevHigh(u32),
    DevBelow(Below),
    Ep(EpLine),
    Reply(Name, Answer),
    Fate(FateLine),
    /// An endpoint, and how many bytes in 36 stuffed bits make its packets longer (USB 2.0, 7.1.9).
    Stuff(Name, u32),
    /// The first and the last microframe in which the bus may not be used.
    Hold(u32, u32),
    Open(Name),
    Cancel(Name),
    /// The halt of an endpoint is cleared (USB 2.0, 9.4.5).
    Clear(Name),
    Get(GetLine),
    Put(PutLine),
    Control(ControlLine),
    Iso(IsoLine),
    /// So many steps of the driver or of the controller.
    Order(Event, u32),
    /// Turns until so many microframes have ended.
    Micro(u32),
    /// Nothing: the form is one that no version has yet.
    Unbuilt,
}

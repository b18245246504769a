use crate::numbers::{DevAddr, EpNum};
use crate::packets::{EpKind, Speed, Way};

/// The name of an endpoint: the address of its device, its number and its way.
#[derive(Clone, Copy, Debug, PartialEq, Eq)]
pub struct EpName {
    pub addr: DevAddr,
    pub num: EpNum,
    pub way: Way,
}

/// What the host knows of an endpoint.
#[derive(Clone, Copy, Debug, PartialEq, Eq)]
pub struct EpDesc {
    pub name: EpName,
    pub speed: Speed,
    pub kind: EpKind,
    /// The maximum packet size in bytes, 1 to 1,024.
    pub max: u16,
    /// The period in microframes of an interrupt or isochronous endpoint, a power of two from 1 to 8,192.
    pub period: u16,
    /// The transactions in a microframe of its period, 1 to 3; 1 below a hub.
    pub multi: u8,
    /// The hub whose translator serves it, for a full- or low-speed device.
    pub hub: Option<DevAddr>,
    /// The port of that hub.
    pub port: u8,
    /// The translator of that hub, by the port that it serves alone; 0 where one translator serves all ports (USB 2.0, 11.14).
    pub tt: u8,
}

/// Why an endpoint ended.
#[derive(Clone, Copy, Debug, PartialEq, Eq, PartialOrd, Ord, Hash)]
pub enum EndCause {
    /// The device answered STALL (USB 2.0, 8.4.5).
    Stall,
    /// Three errors in one qTD (EHCI 1.0, 4.10.3).
    Error,
    /// The device sent more bytes than the host could take (EHCI 1.0, 4.15.1.1.2).
    Babble,
    /// A complete-split came too late or not at all (EHCI 1.0, 4.12.2).
    Miss,
    /// The endpoint was cancelled.
    Cancel,
}

/// A disk of a high-speed device, which two of its bulk endpoints serve (Bulk-Only Transport 1.0).
#[derive(Clone, Copy, Debug, PartialEq, Eq)]
pub struct DiskText {
    /// The address of the device.
    pub addr: DevAddr,
    /// The number of its IN endpoint.
    pub input: EpNum,
    /// The number of its OUT endpoint.
    pub output: EpNum,
    /// How many blocks of 512 bytes it has, 1 to 1,024.
    pub blocks: u32,
}

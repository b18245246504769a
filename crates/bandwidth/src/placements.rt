use usb_base::{DevAddr, Dir, EpKind, Speed};

/// A periodic endpoint that asks for a place on the bus.
#[derive(Clone, Copy, Debug, PartialEq, Eq)]
pub struct Want {
    /// The name under which it is placed and removed.
    pub id: u32,
    pub speed: Speed,
    /// Interrupt or isochronous.
    pub kind: EpKind,
    pub dir: Dir,
    /// The maximum packet size in bytes: 1 to 1,024 at high speed; at full speed to 64, isochronous to 1,023; at low speed to 8.
    pub max: u16,
    /// The transactions in a microframe, 1 to 3 at high speed and 1 below a hub (USB 2.0, 5.9).
    pub multi: u8,
    /// The period in microframes, a power of two from 1 to 8,192; at least 8 below a hub.
    pub period: u16,
    /// The hub whose translator serves it, for a full- or low-speed endpoint alone.
    pub hub: Option<DevAddr>,
    /// The translator of that hub, by the port that it serves alone; 0 where one serves all ports (USB 2.0, 11.14).
    pub tt: u8,
}

/// A place on the bus. It is active in each frame that leaves `phase` when divided by the frames of its period, 1 below 8
/// microframes (EHCI 1.0, 4.7 and 4.12).
#[derive(Clone, Copy, Debug, PartialEq, Eq)]
pub struct Placement {
    /// The period in microframes.
    pub period: u16,
    /// The frame of the period in which it is active.
    pub phase: u16,
    /// The microframes of an active frame with a transaction or a start-split, microframe 0 in bit 0 (EHCI 1.0, 3.6.2).
    pub smask: u8,
    /// The microframes of an active frame with a complete-split.
    pub cmask: u8,
}

/// An endpoint that was admitted, and its place.
#[derive(Clone, Copy, Debug, PartialEq, Eq)]
pub struct Placed {
    pub want: Want,
    pub placement: Placement,
}

/// Why an endpoint wasn't admitted. The plan stands as it was.
#[derive(Clone, Copy, Debug, PartialEq, Eq)]
pub enum Refused {
    /// Every allowed placement breaks a budget.
    NoPlacement,
    /// As many endpoints are placed as the plan has room for.
    Room,
}

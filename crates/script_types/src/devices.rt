use usb_base::{DevAddr, EpDesc, ListOf, Speed};

/// What a scripted endpoint does next.
#[derive(Debug, Drop)]
pub enum Item {
    /// One data packet with these bytes, for an IN endpoint.
    Bytes(ListOf<u8>),
    /// NAK is answered this many times (USB 2.0, 8.4.5).
    Nak(u32),
    /// The next data of an OUT are accepted, and no room is told for more: NYET at high speed, else ACK (USB 2.0, 8.5.1).
    Nyet,
    /// STALL is answered from here on (USB 2.0, 8.4.5).
    Stall,
    /// The reply to the request with these setup bytes, for a control endpoint (USB 2.0, 9.3).
    Request {
        /// The eight setup bytes.
        setup: [u8; 8],
        /// The bytes of its data stage, where that is an IN.
        bytes: ListOf<u8>,
    },
    /// What stands behind it comes once the endpoint is reset.
    Epoch,
}

/// A scripted endpoint.
#[derive(Debug, Drop)]
pub struct EpText {
    /// What the host knows of it.
    pub desc: EpDesc,
    /// What it does, in order.
    pub items: ListOf<Item>,
    /// The bytes that an OUT endpoint has room for: the sum of the lengths that the script puts to it; 0 for every other endpoint.
    pub room: u32,
    /// How many bytes in 36 its packets are longer by stuffed bits below a translator, 0 to 6 (USB 2.0, 7.1.9).
    pub stuff: u8,
    /// How often it is cleared.
    pub clears: u32,
}

/// A scripted device with its endpoints in the order of their lines.
#[derive(Debug, Drop)]
pub struct DeviceText {
    /// Its address, 1 to 127.
    pub addr: DevAddr,
    /// Its speed.
    pub speed: Speed,
    /// Its endpoints.
    pub eps: ListOf<EpText>,
}

/// A hub, and what is attached to its ports.
#[derive(Debug, Drop)]
pub struct HubText {
    /// Its address, 1 to 127.
    pub addr: DevAddr,
    /// The number of its ports, 1 to 15.
    pub ports: u8,
    /// For each port, from port 1 on, the speed of the device that is attached there.
    pub attached: ListOf<Option<Speed>>,
    /// It has a translator for each port, and not one for all (USB 2.0, 11.14).
    pub multi: bool,
}

use bus_wire::Told;
use usb_base::{Ask, Fate, Packet, Pid};

/// What was answered in a transaction, whether the host heard it or not.
#[derive(Clone, Copy, Debug, PartialEq, Eq)]
pub enum Answer {
    /// Nothing.
    Nothing,
    /// A data packet with this PID and so many bytes.
    Data(Pid, u16),
    /// A handshake.
    Handshake(Pid),
}

/// What became of each packet of a transaction. Of one that wasn't sent it says nothing.
#[derive(Clone, Copy, Debug, PartialEq, Eq)]
pub struct Fates {
    /// The token.
    pub token: Fate,
    /// The data right behind an OUT or a SETUP.
    pub data: Fate,
    /// The answer.
    pub answer: Fate,
    /// The host's acknowledgement of the answer.
    pub acknowledgement: Fate,
}

/// One transaction on the high-speed bus or below a translator (USB 2.0, 8.5).
#[derive(Clone, Copy, Debug, PartialEq, Eq)]
pub struct Exchange {
    /// What was asked, by the host or by a translator.
    pub ask: Ask,
    /// How many bytes were sent with it, at most 1,024.
    pub sent: u16,
    /// Which endpoint was asked, and who heard what.
    pub told: Told,
    /// What was answered.
    pub answer: Answer,
    /// What became of the packets.
    pub fates: Fates,
}

/// One transaction below a translator, for the microframe that ended.
#[derive(Debug, Drop)]
pub struct Passed {
    /// The address of the hub.
    pub hub: u8,
    /// The port of the hub that the translator serves; 0 where it serves them all.
    pub port: u8,
    /// When it began, in picoseconds from the begin of that microframe.
    pub time: u64,
    /// What went.
    pub exchange: Exchange,
    /// The bytes that the translator sent in it.
    pub sent: Packet,
    /// The bytes of the data that came in answer, heard or not.
    pub got: Packet,
}

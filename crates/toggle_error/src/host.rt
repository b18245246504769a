use usb_base::EndCause;

/// The host's side of one queue head's transfer: what a transaction may change of it.
#[derive(Clone, Copy, Debug, PartialEq, Eq)]
pub struct HostSide {
    /// The data toggle: set where the next packet is a DATA1 (USB 2.0, 8.6).
    pub toggle: bool,
    /// The ping state of a high-speed OUT endpoint: set where PING comes before the next data (EHCI 1.0, 4.11).
    pub ping: bool,
    /// The errors that are left before the transfer halts; 0 means that errors aren't counted (EHCI 1.0, 3.5.3).
    pub cerr: u8,
    /// The bytes that are left to move.
    pub left: u16,
    /// The maximum packet size in bytes.
    pub max: u16,
    /// Whether the transfer goes on.
    pub active: bool,
    /// Whether the transfer halted.
    pub halted: bool,
    /// Whether the device sent more bytes than the host could take.
    pub babble: bool,
    /// Whether a transaction had an error.
    pub xact_err: bool,
    /// Whether a complete-split was missed.
    pub missed: bool,
    /// The split state: set where a complete-split comes next (Do-Complete), else a start-split (EHCI 1.0, 4.12).
    pub waiting: bool,
}

/// What a transaction came to.
#[derive(Clone, Copy, Debug, PartialEq, Eq)]
pub enum Outcome {
    /// This number of bytes moved.
    Moved(u16),
    /// The data was a repeat of a packet that was taken before (USB 2.0, 8.6.4).
    Discarded,
    /// The device or translator has nothing or no room now.
    Nak,
    /// The device has room, or the translator works on it: the host goes on with the next transaction.
    Wait,
    /// An error that doesn't halt the transfer.
    Error,
    /// The transfer halted, for this cause: `Stall`, `Error` or `Babble`.
    Halt(EndCause),
}

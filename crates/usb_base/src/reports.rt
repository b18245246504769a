use crate::endpoints::{EndCause, EpName};

/// Why the driver refuses a command. A refusal changes nothing.
#[derive(Clone, Copy, Debug, PartialEq, Eq)]
pub enum OfferError {
    /// A command that was accepted before is unfinished.
    Busy,
    /// The endpoint was never opened, or its kind or direction doesn't take the command.
    NoEndpoint,
    /// The endpoint has ended, for this cause.
    Closed(EndCause),
    /// The endpoint to be opened is open.
    AlreadyOpen,
    /// The transfer is longer than the driver takes.
    TooLong,
    /// No placement of the periodic endpoint keeps every budget (USB 2.0, 5.7.4 and 11.18).
    NoPlacement,
    /// No page has a free run of `need` blocks of 32 bytes; the largest has `largest`.
    NoBlocks { need: u32, largest: u32 },
    /// The endpoint to be cleared hasn't ended.
    NotEnded,
    /// The endpoint 0 of the hub whose translator is to be cleared isn't open, has ended, or has a request that isn't done.
    HubClosed,
}

/// What a line of the report tells of an endpoint.
#[derive(Clone, Copy, Debug, PartialEq, Eq)]
pub enum What {
    /// A transfer or request was done.
    Done,
    /// A transfer or request was halted.
    Halt(EndCause),
    /// A split interrupt transfer missed its complete-split.
    Miss,
    /// The endpoint was cancelled.
    Cancel,
    /// The slots of an isochronous descriptor were served, this number of them with an error.
    Iso { errors: u8 },
    /// The command on this line of the script was refused.
    Refused { line: u32, why: OfferError },
    /// The halt of the endpoint was cleared: it is open again.
    Clear,
    /// The hub's request of a clear ended so: the endpoint stays ended.
    ClearFailed(EndCause),
    /// A root port of this number has this status and control word (EHCI 1.0, 2.3.9).
    Port { port: u8, value: u32 },
    /// The command with this tag of a disk was done, and it passed or failed.
    Disk { tag: u32, passed: bool },
    /// A disk and its endpoints were reset.
    DiskReset,
}

/// One line of the report, whose bytes are the `len` bytes from `from` on of the store of all reported bytes.
#[derive(Clone, Copy, Debug, PartialEq, Eq)]
pub struct Report {
    pub name: EpName,
    pub what: What,
    pub from: u32,
    pub len: u32,
}

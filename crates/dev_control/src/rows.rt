/// The token that a device hears (USB 2.0, 8.4.1).
#[derive(Clone, Copy, Debug, PartialEq, Eq)]
pub enum StageToken {
    Setup,
    In,
    Out,
    Ping,
    /// No token of a transaction with a device.
    Other,
}

/// What the PID of a data packet is to a receiver that expects DATA0 or DATA1 (USB 2.0, 8.6).
#[derive(Clone, Copy, Debug, PartialEq, Eq)]
pub enum Sequence {
    /// The PID that it expects.
    Next,
    /// The other one of DATA0 and DATA1: the packet was received before.
    Repeat,
    /// Any other PID.
    Neither,
}

/// The stage at which the next token finds a control endpoint (USB 2.0, 8.5.3).
#[derive(Clone, Copy, Debug, PartialEq, Eq)]
pub enum Stage {
    /// No SETUP came yet, or the device has no reply to it (USB 2.0, 8.5.3.4).
    Refusing,
    /// The data stage of a read, with a packet to send.
    Reading,
    /// The data stage of a read, all of whose packets were acknowledged.
    AllRead,
    /// The data stage of a write, with bytes to come.
    Writing,
    /// The status stage of a write, all of whose bytes came.
    AllWritten,
    /// The status stage of a request that has no data stage.
    NoData,
}

/// What a control endpoint does at a token.
#[derive(Clone, Copy, Debug, PartialEq, Eq)]
pub enum StageRow {
    /// A SETUP of eight bytes: ACK, and the request with these setup bytes begins.
    Begins([u8; 8]),
    /// A SETUP of another length: no answer.
    Ignores,
    /// NAK, one of those that are left.
    Naks,
    /// The next data packet of a read.
    Sends,
    /// ACK to the next data packet of a write, which is taken: the data stage is this many bytes far with it.
    Takes(u32),
    /// ACK to a data packet of a write that was taken before.
    Drops,
    /// ACK to the status stage of a read; the first one acts on the request.
    Acknowledges,
    /// An empty DATA1 as the status stage of a write, or of a request with no data; the first one acts on the request.
    Confirms,
    /// ACK to a PING.
    HasRoom,
    /// STALL.
    Stalls,
}

/// The ask of a settle row: which token goes out.
#[derive(Clone, Copy, Debug, PartialEq, Eq)]
pub enum AskToken {
    In,
    /// An OUT of an endpoint that isn't pinged.
    Out,
    /// An OUT of an endpoint that is pinged: high-speed bulk or control (USB 2.0, 8.5.1).
    PingedOut,
    Setup,
    Ping,
    /// No token that a host sends for a transfer.
    Unknown,
}

/// The reply of a settle row: what the host heard, beside what it expects.
#[derive(Clone, Copy, Debug, PartialEq, Eq)]
pub enum Heard {
    /// Data with the expected PID, this number of bytes, no more than the host can take.
    Fitting(u16),
    /// Data with the other one of DATA0 and DATA1.
    Repeat,
    /// Data with the expected PID and more bytes than the host can take.
    TooLong,
    Ack,
    Nak,
    Nyet,
    Stall,
    /// The handshake by which a translator tells of errors below it (USB 2.0, 8.4.5).
    Err,
    /// Silence, or anything else.
    Nothing,
}

/// A settle row of a plain ask, in the order of the table.
#[derive(Clone, Copy, Debug, PartialEq, Eq)]
pub enum PlainRow {
    /// An IN brought this number of bytes.
    Received(u16),
    /// An IN brought a repeat.
    Repeated,
    /// An IN brought too many bytes.
    Babbled,
    /// This number of bytes of an OUT or SETUP were acknowledged.
    Sent(u16),
    /// This number of bytes of a pinged OUT were acknowledged, and there is no room for more.
    SentLast(u16),
    /// NAK to an IN, or to an OUT that isn't pinged.
    Refused,
    /// NAK to a pinged OUT.
    RefusedPinged,
    /// ACK to a PING.
    Room,
    /// NAK to a PING.
    NoRoom,
    /// STALL to anything.
    Stalled,
    /// Silence or anything else to an ask that isn't pinged.
    Failed,
    /// Silence or anything else to a pinged OUT or a PING.
    FailedPinged,
}

/// A settle row of a start-split, in the order of the table.
#[derive(Clone, Copy, Debug, PartialEq, Eq)]
pub enum StartRow {
    /// The translator took a bulk or control start-split.
    Accepted,
    /// The translator has no buffer for it.
    Declined,
    /// Silence or anything else to a bulk or control start-split.
    Unheard,
    /// An interrupt start-split, which no handshake answers (USB 2.0, 8.5.4 and 11.20).
    Begun,
}

/// A settle row of a complete-split, in the order of the table.
#[derive(Clone, Copy, Debug, PartialEq, Eq)]
pub enum CompleteRow {
    /// The translator has no answer yet.
    Pending,
    /// NYET to the last complete-split of an interrupt transaction.
    NeverCame,
    /// The device's answer, which is settled as that of a plain ask.
    Answered(PlainRow),
    /// The translator tells of errors below it.
    BrokeBelow,
    /// Silence or anything else.
    Unanswered,
}

/// A row of the settle table.
#[derive(Clone, Copy, Debug, PartialEq, Eq)]
pub enum SettleRow {
    Plain(PlainRow),
    Start(StartRow),
    Complete(CompleteRow),
}

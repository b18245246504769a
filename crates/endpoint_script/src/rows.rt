/// What a bulk or interrupt OUT endpoint does at an OUT or a PING.
#[derive(Clone, Copy, Debug, PartialEq, Eq)]
pub enum TakeRow {
    /// ACK to data that were taken before.
    Drops,
    /// NAK, one of the item's number.
    Naks,
    /// NAK to data that are longer than the room that is left.
    IsFull,
    /// STALL.
    Stalls,
    /// ACK to data that are taken.
    Takes,
    /// NYET to data that are taken, or ACK below high speed.
    TakesLast,
    /// ACK to a PING.
    HasRoom,
}

use toggle_error::Outcome;
use usb_base::{DataPart, DevAddr, EpKind, EpNum, Packet, Pid, Ps, Reply, Speed};

/// What a queue head or descriptor tells of the endpoint that a transaction goes to.
#[derive(Clone, Copy, Debug, PartialEq, Eq)]
pub struct Pipe {
    /// The address of the device.
    pub addr: DevAddr,
    /// The number of the endpoint.
    pub ep: EpNum,
    /// The speed of the device.
    pub speed: Speed,
    /// The transfer type of the endpoint.
    pub kind: EpKind,
    /// The token: IN, OUT or SETUP. An OUT whose host side is in the ping state goes out as a PING.
    pub pid: Pid,
    /// The hub whose translator splits the transaction, where it is split.
    pub hub: DevAddr,
    /// The port of that hub.
    pub port: u8,
    /// Which part of its data a start-split of an isochronous OUT carries.
    pub part: DataPart,
}

/// What one transaction came to.
#[derive(Debug, Drop)]
pub struct Result3 {
    /// The outcome, as the reply was settled.
    pub outcome: Outcome,
    /// The bus time that the transaction is priced at, whatever became of it.
    pub spent: Ps,
    /// The bytes that were received: those of an IN that moved, else none.
    pub got: Packet,
}

/// What one isochronous transaction came to.
#[derive(Debug, Drop)]
pub struct IsoResult {
    /// The reply, as the wire gave it.
    pub reply: Reply,
    /// The bus time that the transaction is priced at.
    pub spent: Ps,
}

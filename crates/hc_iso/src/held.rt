use itd_sitd::{Itd, ItdSlot, Sitd};
use usb_base::{Ask, Ps};

/// An isochronous transaction that comes next.
#[derive(Clone, Copy, Debug, PartialEq, Eq)]
pub struct IsoTransaction {
    /// What is asked.
    pub ask: Ask,
    /// How many bytes of the buffer go out with it.
    pub bytes: u16,
    /// The bus time that it is priced at (USB 2.0, 5.11.3).
    pub price: Ps,
}

/// How the transactions of a microframe of an iTD ended.
#[derive(Clone, Copy, Debug, PartialEq, Eq)]
pub enum IsoEnd {
    /// Its last packet was moved.
    Whole,
    /// An error was recorded.
    Failed,
}

/// The copy of an iTD in hand, with what its transactions in this microframe came to (EHCI 1.0, 4.7.1).
#[derive(Clone, Copy, Debug, PartialEq, Eq)]
pub struct HeldItd {
    /// Where the iTD stands: a byte address, a multiple of 32.
    pub at: u32,
    /// The descriptor, as it was read.
    pub itd: Itd,
    /// The microframe, 0 to 7.
    pub number: u8,
    /// The word of the microframe, with the errors that were recorded.
    pub slot: ItdSlot,
    /// How many transactions were made.
    pub made: u8,
    /// How many packets are to come, at most.
    pub rest: u8,
    /// How many bytes were moved.
    pub moved: u16,
    /// How it ended, once no transaction is to come; the write-back comes next.
    pub ended: Option<IsoEnd>,
}

/// What an IN of an iTD heard.
#[derive(Clone, Copy, Debug, PartialEq, Eq)]
pub enum Heard {
    /// A packet with its place in the count, after which this many come, and its bytes.
    Packet(u8, u16),
    /// A packet with more bytes than the host could take.
    TooLong,
    /// Nothing that the host can use.
    Wrong,
}

/// The copy of a siTD in hand (EHCI 1.0, 4.12.3).
#[derive(Clone, Copy, Debug, PartialEq, Eq)]
pub struct HeldSitd {
    /// Where the siTD stands: a byte address, a multiple of 32.
    pub at: u32,
    /// The copy. The words may differ: what its transaction changed isn't written yet.
    pub sitd: Sitd,
    /// What its transaction came to, once it was made; the write-back comes next.
    pub settled: Option<SplitOutcome>,
}

/// What a transaction of a siTD came to.
#[derive(Clone, Copy, Debug, PartialEq, Eq)]
pub enum SplitOutcome {
    /// This number of bytes moved.
    Moved(u16),
    /// Nothing moved, and no error was recorded.
    Nothing,
    /// An error was recorded, and the descriptor is done.
    Failed,
}

/// What a complete-split of a siTD heard.
#[derive(Clone, Copy, Debug, PartialEq, Eq)]
pub enum SplitHeard {
    /// Data: whether these are the last, and how many bytes.
    Data(bool, u16),
    /// Nothing yet: another complete-split comes.
    Later,
    /// More bytes than are left.
    TooLong,
    /// The translator had an error.
    Error,
    /// Nothing that the host can use.
    Wrong,
}

/// What there is to do at a siTD in a microframe.
#[derive(Clone, Copy, Debug, PartialEq, Eq)]
pub enum SitdTurn {
    /// Nothing.
    Rest,
    /// A transaction.
    Work,
    /// A microframe of its split transaction was missed.
    Miss,
}

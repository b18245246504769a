use bus_packets::Exchange;
use drv_jobs::JobRow;
use hc_core::HcStep;
use usb_base::{EpName, OfferError};

/// The packets of one endpoint below a translator in the microframe that ended.
#[derive(Clone, Copy, Debug, PartialEq, Eq)]
pub struct Work {
    /// The endpoint.
    pub name: EpName,
    /// The number of its first packet there, from 0.
    pub first: u64,
    /// The number of the packet after its last.
    pub end: u64,
    /// How many of them were lost or damaged.
    pub unheard: u32,
}

/// What one event was.
#[derive(Clone, Copy, Debug, PartialEq, Eq)]
pub enum Happening {
    /// The controller began a microframe, in which the bus may be used or not.
    Began(bool),
    /// Any other event of the controller.
    Controller {
        /// Its kind.
        step: HcStep,
        /// The byte address of the structure that it was about, if it was about one.
        at: Option<u32>,
        /// The transaction that was made.
        exchange: Option<Exchange>,
        /// Its price in picoseconds; 0 where there was none.
        price: u64,
        /// The time that is left in the microframe, in picoseconds.
        left: u64,
    },
    /// An event of the driver.
    Driver {
        /// Its row.
        row: JobRow,
        /// The byte address and the word of a store.
        stored: Option<(u32, u32)>,
    },
    /// The command on this line of the script was offered: why it was refused, if it was.
    Offered(u32, Option<OfferError>),
}

/// One event or command, with its moment.
#[derive(Clone, Copy, Debug, PartialEq, Eq)]
pub struct Entry {
    /// The number of the microframe, from 1 at the first that began; 0 before it.
    pub microframe: u32,
    /// FRINDEX, 0 to 16,383.
    pub frame_index: u16,
    /// What happened.
    pub happening: Happening,
}

ghost use Rattle.std.specs.Prelude.{◌≡◌};

use drv_chains::Boundary;
use drv_table::{DriverRow, DriverStep, Mend};
use usb_base::{EpName, What};

/// The words of a queue head's overlay that a clear stores, in the order of their stores (EHCI 1.0, 3.6.3).
#[derive(Clone, Copy, Debug, PartialEq, Eq)]
pub enum OverlayWord {
    /// The next qTD.
    Next,
    /// The alternate next qTD.
    Alternate,
    /// The token.
    Token,
}

/// What the driver is at over several events; the first number is that of an endpoint, whose halt is cleared.
#[derive(Clone, Copy, Debug, PartialEq, Eq)]
pub enum Job {
    /// The hub was asked to empty the buffer of the endpoint, by the transfer of this number, which isn't harvested yet.
    Asks(usize, usize),
    /// FRINDEX is read until two frame numbers were seen, so that the translator has none of the endpoint's results.
    Reads(usize, Boundary),
    /// The endpoint of the device or hub is to be reset.
    Resets(usize),
    /// It was reset, and this word of its queue head is to be stored.
    Mends(usize, OverlayWord),
    /// All are stored: what its transfers still have is to be given back, and it is open again.
    Reopens(usize),
}

/// One event of the driver, with its data.
#[derive(Clone, Copy, Debug, PartialEq, Eq)]
pub enum JobRow {
    /// One of the driver's own.
    Plain(DriverRow),
    /// The request to the hub ended: its endpoint, its transfer, the bytes moved in its last qTD, how it ended.
    EndsRequest(usize, usize, u16, What),
    /// FRINDEX is read.
    ReadsFrame(u16),
    /// The endpoint of the device or hub is reset (USB 2.0, 9.4.5).
    Resets(EpName),
    /// A word of a queue head is stored.
    Mends(Mend),
    /// The transfers of this endpoint are given back, and it is open again.
    Reopens(usize),
}

impl JobRow {
    ghost use Rattle.drv_jobs.specs.Jobs.{step_of_job};

    /// What kind of event it is.
    pub fn step(self) -> DriverStep
        ensures { result ≡ step_of_job self }
    {
        match self {
            JobRow::Plain(row) => row.step(),
            JobRow::EndsRequest(_, _, _, _) => DriverStep::Harvest,
            // One access of FRINDEX (EHCI 1.0, 2.3.4).
            JobRow::ReadsFrame(_) => DriverStep::Register,
            // The device forgets its halt; no packet is sent (USB 2.0, 9.4.5).
            JobRow::Resets(name) => DriverStep::Reset(name),
            // A shared word is stored whole, one an event (EHCI 1.0, 4.8.1).
            JobRow::Mends(_) => DriverStep::Store,
            // No access of memory: the blocks alone change hands.
            JobRow::Reopens(_) => DriverStep::Release,
        }
    }
}

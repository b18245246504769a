ghost use Rattle.std.specs.Prelude.{◌≡◌};

use crate::content::Mend;
use drv_periodic_table::Removed;
use usb_base::{DevAddr, EpName, What};

/// The kind of an event of the driver.
#[derive(Clone, Copy, Debug, PartialEq, Eq)]
pub enum DriverStep {
    /// The runs of a command were lent to the controller.
    Lend,
    /// One word was stored that the controller shares.
    Store,
    /// One register was read or written.
    Register,
    /// One token was read.
    Harvest,
    /// The blocks of a transfer or of an endpoint were given back.
    Release,
    /// The endpoint of a device or hub was reset.
    Reset(EpName),
    /// The disk of a device and its endpoints were reset.
    ResetDisk(DevAddr),
    /// There was nothing to do.
    Rest,
}

/// What the token tells that a harvest reads.
#[derive(Clone, Copy, Debug, PartialEq, Eq)]
pub enum Found {
    /// The qTD isn't done.
    Active,
    /// It is done, this many bytes were moved, and its transfer goes on.
    Moved(u16),
    /// This many bytes were moved, and its transfer ends so.
    Ended(u16, What),
    /// No slot of the isochronous descriptor is active any more, and this number of them has an error bit; a siTD is one slot.
    Served(u8),
}

/// One event of the driver, with its data.
#[derive(Clone, Copy, Debug, PartialEq, Eq)]
pub enum DriverRow {
    /// The runs taken by the command are lent.
    Lend,
    /// The command stores a word into the structure that begins in the block: block, byte address, word.
    Store(u16, u32, u32),
    /// The same for a stalled control endpoint.
    Mend(Mend),
    /// FRINDEX is read, and the command's descriptors get their frames.
    Frames,
    /// The links of the command's descriptors are written, and they are lent.
    LendDescriptors,
    /// The harvested descriptor of this transfer leaves its frame by one store.
    Unlink(usize),
    /// What left the frame list is given back.
    ReleaseRemoved(Removed),
    /// The blocks of the transfer are given back.
    ReleaseTransfer(usize),
    /// The blocks of the cancelled endpoint are given back.
    ReleaseEndpoint(usize),
    /// Async Advance is cleared.
    ClearAdvance,
    /// The doorbell is set.
    RingBell,
    /// USBSTS is read, with Async Advance in it or not.
    ReadStatus(bool),
    /// FRINDEX is read.
    ReadFrame(u16),
    /// A token of the endpoint's transfer is read: endpoint, transfer, what it tells.
    Harvest(usize, usize, Found),
    /// There is nothing to do.
    Rest,
}

impl DriverRow {
    ghost use Rattle.drv_table.specs.Rows.{step_of};

    /// What kind of event it is.
    pub fn step(self) -> DriverStep
        ensures { result ≡ step_of self }
    {
        match self {
            // What is lent is written before (EHCI 1.0, 4.8.1).
            DriverRow::Lend | DriverRow::LendDescriptors => DriverStep::Lend,
            // A shared word is stored whole, one an event (EHCI 1.0, 4.8.1).
            DriverRow::Store(_, _, _) | DriverRow::Mend(_) | DriverRow::Unlink(_) =>
                DriverStep::Store,
            // No access of memory: the blocks alone change hands.
            DriverRow::ReleaseTransfer(_)
            | DriverRow::ReleaseEndpoint(_)
            | DriverRow::ReleaseRemoved(_) => { DriverStep::Release }
            // One access of USBCMD or USBSTS (EHCI 1.0, 2.3.1 and 2.3.2).
            DriverRow::ClearAdvance | DriverRow::RingBell | DriverRow::ReadStatus(_) =>
                DriverStep::Register,
            // One access of FRINDEX (EHCI 1.0, 2.3.4).
            DriverRow::Frames | DriverRow::ReadFrame(_) => DriverStep::Register,
            DriverRow::Harvest(_, _, _) => DriverStep::Harvest,
            DriverRow::Rest => DriverStep::Rest,
        }
    }
}

use crate::endpoints::{EpDesc, EpName};
use crate::items::ListOf;
use crate::numbers::DevAddr;

/// A command for the driver.
#[derive(Debug, Drop)]
pub enum Cmd {
    /// The endpoint is opened.
    OpenEp(EpDesc),
    /// `len` bytes are asked of an IN endpoint, in qTDs of `by` bytes, the last with the rest.
    Get {
        /// The endpoint.
        name: EpName,
        /// How many bytes, at most 65,535.
        len: u32,
        /// The bytes of a qTD, a multiple of the maximum packet size up to 20,480; or 20,480.
        by: u32,
    },
    /// `bytes` are sent to an OUT endpoint, in qTDs of `by` bytes, the last with the rest.
    Put {
        /// The endpoint.
        name: EpName,
        /// The bytes.
        bytes: ListOf<u8>,
        /// The bytes of a qTD, a multiple of the maximum packet size up to 20,480; or 20,480.
        by: u32,
    },
    /// A request to a control endpoint (USB 2.0, 9.3).
    Control {
        /// The endpoint.
        name: EpName,
        /// Its eight setup bytes.
        setup: [u8; 8],
        /// The bytes of its data stage, where that is an OUT.
        bytes: ListOf<u8>,
    },
    /// Descriptors of an isochronous endpoint, one a period.
    Iso {
        /// The endpoint.
        name: EpName,
        /// How many descriptors, 1 to 8.
        count: u8,
        /// The bytes of a slot of an OUT.
        len: u16,
        /// The first byte of an OUT; each further byte is one more, modulo 256, without a break.
        seed: u8,
    },
    /// The endpoint is cancelled.
    Cancel(EpName),
    /// The halt of an endpoint that has ended is cleared (USB 2.0, 9.4.5).
    Clear(EpName),
    /// The root port of this number is reset (EHCI 1.0, 2.3.9).
    Reset(u8),
    /// The root port of this number is given to a companion controller (EHCI 1.0, 4.2).
    Give(u8),
    /// Blocks of a disk are read.
    DiskRead {
        /// The address of its device.
        addr: DevAddr,
        /// The number of the first block.
        lba: u32,
        /// How many blocks of 512 bytes, 1 to 40.
        count: u16,
    },
    /// Blocks of a disk are written.
    DiskWrite {
        /// The address of its device.
        addr: DevAddr,
        /// The number of the first block.
        lba: u32,
        /// The bytes, 1 to 40 blocks of 512.
        bytes: ListOf<u8>,
    },
    /// Both endpoints of the disk of this device are cancelled, reset and opened again.
    Revive(DevAddr),
}

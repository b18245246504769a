//! The numbers of the standards that several crates name, each with its section and its unit. The file `Limits` of the
//! definitions has each of them under its name in small letters.

/// The time of a microframe, 125 microseconds, in picoseconds (USB 2.0, 8.4.3.1).
pub const MICROFRAME_TIME: u64 = 125_000_000;

/// What periodic transactions may take of a high-speed microframe: 80 of 100 of its time, in picoseconds (USB 2.0, 5.6.4
/// and 5.7.4).
pub const MICROFRAME_BUDGET: u64 = 100_000_000;

/// What periodic transactions may take of a full- or low-speed frame: 90 of 100 of its millisecond, in picoseconds (USB 2.0,
/// 5.6.4 and 5.7.4).
pub const FRAME_BUDGET: u64 = 900_000_000;

/// The byte-times that a transaction translator's bus moves in a microframe at most (USB 2.0, 11.18.1).
pub const BYTE_TIMES_OF_MICROFRAME: u16 = 188;

/// The elements of the periodic frame list, one for each frame (EHCI 1.0, 3.1).
pub const FRAME_LIST_LENGTH: u32 = 1024;

/// The bytes that a qTD moves at most: its five pages of 4,096 (EHCI 1.0, 3.5.3).
pub const LONGEST_QTD: u32 = 20_480;

/// The isochronous descriptors of an endpoint that stand in the frame list at a time, at most. The number is this host's
/// own: EHCI 1.0, 4.7, sets none.
pub const MOST_DESCRIPTORS: u32 = 8;

/// The words of a memory at most, which are 1,048,576 bytes. The number is this host's own.
pub const MOST_MEMORY: u32 = 262_144;

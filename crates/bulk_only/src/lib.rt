//! The bulk-only transport of USB mass storage (USB Mass Storage Class, Bulk-Only Transport 1.0): `CommandBlock` and `StatusBlock` are
//! its blocks (5.1 and 5.2), `Disk` obeys the READ (10) and WRITE (10) commands that come as bytes, cut anywhere into packets.
//!
//! A host writes `CommandBlock::bytes` and reads `StatusBlock::read`. A device hands what its OUT endpoint takes to `Disk::take`, and
//! sends `Disk::packet` from its IN endpoint, then calls `Disk::sent`. The tables are `specs/Blocks.antt`, `specs/Fronts.antt` and
//! `specs/Status.antt`; what a disk does is `specs/Contents.antt`.
#![tactic(auto)]

mod blocks;
mod command_block;
mod disk;
mod front;
mod joined;
pub mod laws;
mod replies;
mod rows;
mod status_block;
mod stored;
pub mod worked;

pub use command_block::{CommandBlock, Operation};
pub use disk::Disk;
pub use rows::{BlockRow, Seen};
pub use status_block::{CommandStatus, StatusBlock};

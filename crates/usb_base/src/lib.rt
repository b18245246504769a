//! The vocabulary of the host, which every crate above names: addresses and packets (USB 2.0, chapters 5 and 8),
//! endpoints, commands, the wire and what is acknowledged on it, prices (USB 2.0, 5.11.3 and 11.18), and the outside as
//! sources and sinks of bytes.
//!
//! Others begin with `Ask`, `Reply` and `Wire` (`Ask::acknowledges`), price by `cost` and `tt_bytes`, and write by `write_all`
//! to a `Sink`. The types of scripts stand beside it in `script_types`.
#![tactic(auto)]

mod commands;
mod endpoints;
mod handshake;
mod items;
pub mod limits;
mod mem_sink;
mod mem_source;
mod memory;
mod numbers;
mod outside;
mod packets;
mod price;
mod reports;
mod rules;
mod wire;
pub mod worked;
mod writing;

pub use commands::Cmd;
pub use endpoints::{DiskText, EndCause, EpDesc, EpName};
pub use items::{ListOf, Packet};
pub use mem_sink::MemSink;
pub use mem_source::MemSource;
pub use memory::Memory;
pub use numbers::{DevAddr, EpNum, Ps};
pub use outside::{Failed, Sink, Source};
pub use packets::{Ask, DataPart, Dir, EpKind, Fate, Pid, Reply, Speed, Split, Way};
pub use price::{cost, tt_bytes};
pub use reports::{OfferError, Report, What};
pub use rules::Rules;
pub use wire::{Wire, reply_to};
pub use writing::write_all;

//! The wire of a script's bus with a record of what went over it: a `Wire` around `bus_wire`' own (USB 2.0, 8.5, 8.6 and 11).
//!
//! `Recorder` answers as the bus does and leaves what the bus leaves; beside that it keeps the last transaction as an `Exchange`, and whether
//! the microframe that began may be used. Contracts see it as `Recorded` of specs/Recorded.antt, where `exchange_of` says of each transaction
//! which packets went. `BelowRecorder` has hubs and devices beside them, which are told each transaction of the host with a hub; their
//! translators work on a wire that records, and so give each transaction below as a `Passed`.
#![tactic(auto)]

mod beneath;
mod devices;
mod fates;
mod hubs;
mod recorder;

pub use hubs::BelowRecorder;
pub use recorder::Recorder;

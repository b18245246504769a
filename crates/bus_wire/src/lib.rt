//! The bus of a script: its devices and hubs, and what becomes of each packet between them and the host controller (USB 2.0, 8.5, 8.6 and 11).
//!
//! `UsbBus::build` makes it from a script; as a `Wire` it begins microframes and makes transactions. Contracts see it as `Wired` of
//! specs/Bus.antt: what is fixed in a run, and the content `Bus`. Both calls of the wire are functions of it: `begin_after` and
//! `is_allowed`, `transact_after` and `reply_of`. Who heard what in a transaction is one table for every token (specs/WhoHeard.antt), on the
//! high-speed bus and on those below hubs (specs/Below.antt). Beside it stand `endpoint_script` and `hub_class`, whose devices and hubs answer.
#![tactic(auto)]

mod asked;
mod asking;
mod below;
mod build;
mod bus;
mod fixed;
mod numbers;
mod places;
mod seats;
mod told;
mod who_heard;
pub mod worked;

pub use asked::{Answerer, Asked, Losses};
pub use bus::UsbBus;
pub use seats::{Owner, Seat, TokenKind};
pub use told::Told;
pub use who_heard::WhoHeard;

//! What both halves of a hub's transaction translator share (USB 2.0, 11.14 and 11.17 to 11.20): the `Key` by which
//! a buffer or an entry of its pipeline is found, the plain ask that a start-split stands for on the bus below
//! (`classic_ask`), and the byte-times that it takes there (`work`, and `stuffed` with its stuffed bits). Crates
//! `tt_bulk` and `tt_pipeline` are the two halves.
#![tactic(auto)]

mod asks;
mod key;
pub mod worked;

pub use asks::{classic_ask, stuffed, work};
pub use key::Key;

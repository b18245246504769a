//! The transaction translators of a hub (USB 2.0, 11.14): `Translators` has one for all ports of the hub, or one for each,
//! and hands each split to that of its port (`start`, `complete`); `microframe` lets them work on the bus below, `clear` and
//! `reset` are ClearTTBuffer and ResetTT. A translator is a pair of buffers (crate `tt_bulk`) and a pipeline (crate
//! `tt_pipeline`). Where each port has its own, none is answered otherwise because of another port:
//! `laws::ports_are_apart`, and the contract of `play`, which makes a list of calls.
#![tactic(auto)]

pub mod laws;
mod playing;
mod translator;
mod translators;
pub mod worked;

pub use playing::{TtCall, play};
pub use translator::Translator;
pub use translators::Translators;

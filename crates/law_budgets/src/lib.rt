//! What the visits of a frame's structures cost of a microframe (EHCI 1.0, 4.4 and 4.12; USB 2.0, 5.11.3): at most the load of what is
//! placed.
//!
//! - `frame_budget`: What the interrupt endpoints of a frame cost at high speed (USB 2.0, 5.11.3; EHCI 1.0, 4.6 and 4.10): visits to the queue heads of its
//!   chain, one each, are visits to different placed endpoints, so they cost together no more than the load of their microframe.
//! - `iso_budget`: What the periodic endpoints of a frame cost at high speed (USB 2.0, 5.11.3; EHCI 1.0, 4.6, 4.7 and 4.10): visits to the queue heads of its
//!   chain and to its isochronous descriptors that wait, one each, are visits to different placed endpoints, so they cost together no more than the load of
//!   their microframe.
//! - `visit_prices`: What the periodic transactions of a microframe cost at high speed (USB 2.0, 5.11.3; EHCI 1.0, 4.7, 4.10.3 and 4.12): a visit to a placed
//!   endpoint costs no more than its placement, whatever the bus replies, and visits to different placed endpoints cost together no more than the load of their
//!   microframe.
//!
//! The crate has no code of its own: each function is a law, and its body is empty.
#![tactic(auto)]

pub mod frame_budget;
pub mod iso_budget;
pub mod visit_prices;

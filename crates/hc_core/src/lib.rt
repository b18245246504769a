//! The host controller: one event a step (EHCI 1.0, 4.1, 4.4 and 4.6 to 4.12).
//!
//! `Controller::step` makes the next event over whatever registers, words and wire it is lent. It stands on the walks of a frame's chain
//! (`periodic_walk`) and of the ring (`async_walk`); a driver writes the words and registers that it reads.
#![tactic(auto)]

mod controller;
mod parts;

pub use controller::{Controller, ControllerRow, HcStep, MicroframePart};

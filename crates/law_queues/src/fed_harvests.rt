//! Harvests and other rows of a driver that store no word leave what is fed of each endpoint's queue (EHCI 1.0, 4.10).
//!
//! The module has no code of its own: each function is a law over the definitions of `fed_queues`, and its body is empty.

pub mod laws;
pub mod worked;

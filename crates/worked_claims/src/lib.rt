//! What the clauses of the top call rule out: of each a small world, or a small run, that breaks it (EHCI 1.0, 4.4, 4.6, 4.7 and 4.10; USB 2.0, 5.11.3).
//!
//! The crate has no code of its own: each function is a law over the definitions of `claims_world` and `bus_world`, and its body is empty.
#![tactic(auto)]

pub mod broken;
pub mod given_back;
pub mod left_frames;
pub mod left_queues;
pub mod owners;
pub mod structures;

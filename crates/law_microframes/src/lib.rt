//! What the two walks of a microframe do, along the run of each script (EHCI 1.0, 4.4, 4.6 to 4.10 and 4.12; USB 2.0, 5.6 to 5.11.3): what
//! they visit, what that costs, that the microframe ends, and that what is due is done.
//!
//! - `due`: What is due at high speed is done in its microframe.
//! - `plans`: The driver's plan of each translator fits in each frame.
//! - `translators`: The translators keep up with their plans, along a run.
//! - `time`: What visits cost, and how many events may still come.
//! - `visits`: What the walks visit, and whom they leave out.
//! - `worked_visits`: Worked rows of `time` and `visits`.
//!
//! The crate has no code of its own: each function is a law, and its body is empty.
#![tactic(auto)]

pub mod due;
pub mod plans;
pub mod time;
pub mod translators;
pub mod visits;
pub mod worked_visits;

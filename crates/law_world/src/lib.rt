//! What stands at each moment of the run of each script (EHCI 1.0, 3.5, 3.6, 4.6 to 4.10; USB 2.0, 5.5 to 5.8): the queues of the endpoints
//! and the structures in memory, at each event of the controller, at each row of the driver and at each command.
//!
//! - `memory`: The structures in memory, the ring and the frame list of worlds with endpoints of every kind.
//! - `steps`: What each row of the driver does to the queues of such a world, row by row.
//! - `streams`: The streams of asynchronous scripts: of bulk endpoints and of requests, up to the report.
//! - `worked_streams`: Worked rows of `streams`.
//!
//! The crate has no code of its own: each function is a law, and its body is empty.
#![tactic(auto)]

pub mod memory;
pub mod steps;
pub mod streams;
pub mod worked_streams;

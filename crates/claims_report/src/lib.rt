//! The streams and requests of a script, and when those of a report are right (USB 2.0, 5.7.3, 5.8.3, 8.5.3 and 8.6).
//!
//! The top call's clauses cite these definitions through `claims_world`:
//!
//! - specs/Streams.antt, specs/Reports.antt: `stream`, `told`, `taken`, and a report as a value.
//! - specs/Requests.antt, specs/Acts.antt: the requests with their windows, and when a device acts on one.
//! - specs/ControlSides.antt, specs/Controls.antt: the device's side of a control endpoint, on the bus of a script.
//!
//! There is no code: each function is a worked row, and its body is empty. The crate stands above `script_types`, `report_text` and `bus_wire`, and below whatever runs a
//! script.
#![tactic(auto)]

pub mod requests;
pub mod streams;

//! What the report of a world tells of control requests (EHCI 1.0, 4.10; USB 2.0, 8.5.3): each line of a control endpoint tells of one request, in their
//! order; its closing line tells how often the device acted; and the requests of a driver's transfers are those that the script has for the endpoint by the
//! report.
//!
//! The module has no code of its own: each function is a law over the definitions of `claims_report`, `right_reports` and `world_requests`, and its body is
//! empty.

pub mod laws;
pub mod worked;

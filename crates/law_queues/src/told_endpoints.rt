//! What the lines of a driver's report tell of each endpoint (EHCI 1.0, 4.10; USB 2.0, 8.6): a qTD that is harvested adds its bytes, held back until the
//! line of its transfer, and a line adds no other bytes than those; nothing is told of an endpoint after its end.
//!
//! The module has no code of its own: each function is a law over the definitions of `claims_report` and `drv_table`, and its body is empty.

mod laws;
mod worked;

pub use laws::{
    harvests_add_bytes, names_and_refusals_tell_nothing, open_adds_endpoint, requests_add_no_stream,
};
pub use worked::held_and_told;

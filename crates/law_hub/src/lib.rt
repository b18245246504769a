//! Laws of a hub's requests: what the row of a request says is what endpoint 0 does over the three stages of its control transfer
//! (USB 2.0, 8.5.3 and 11.24.2).
//!
//! The crate has no code of its own: each function is a law over the definitions of `hub_class` and `dev_control`, and its body is
//! empty. `hub_class::Hub::answer` and `Hub::acked` are these definitions.
#![tactic(auto)]

pub mod laws;
pub mod worked;

//! Laws of control requests (USB 2.0, 8.5.3): a host that sends SETUP, data and status, a device that answers by its stage, and a bus that
//! loses packets.
//!
//! In the window of each request the device acts at most once, and on nothing else; a request that is done was acted on exactly once, and
//! its bytes are all of its data. The host's rows are `toggle_error`'s, its asks `transactions`', the device's rows `dev_control`', and
//! who heard what is `bus_wire`' table. The crate has no code: each function is a law, and its body is empty. A machine that makes one
//! transaction of a control endpoint takes one step by `laws::transaction_keeps`.
#![tactic(auto)]

pub mod laws;
pub mod worked;

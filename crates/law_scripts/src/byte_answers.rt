//! What a bus can be heard to say is bytes (USB 2.0, 8.3.4): each number in the data of each answer is below 256, whoever is asked and whatever was
//! asked before.
//!
//! The module has no code of its own: each function is a law over the definitions of `bus_wire`, and its body is empty.

pub mod laws;
pub mod worked;

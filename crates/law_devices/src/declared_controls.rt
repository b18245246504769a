//! Of each script that a text spells, what its control endpoints have: each high-speed one of a device that is opened is on the bus of the script, freshly
//! opened, with the replies of its lines; endpoints have the numbers of their transfer types, so nothing is sent or taken at number 0; and each
//! request is whole.
//!
//! The module has no code of its own: each function is a law over the definitions of `script_text` and `bus_wire`, and its body is empty.

pub mod laws;
pub mod worked;

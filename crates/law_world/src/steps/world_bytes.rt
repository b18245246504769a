//! What a world hears is bytes (USB 2.0, 8.3.4): at each moment of the run of each script that a text spells, whatever the controller would ask its bus
//! now, each number in the data that it hears is below 256.
//!
//! The module has no code of its own: each function is a law over the definitions of `bus_world`, and its body is empty.

pub mod laws;
pub mod worked;

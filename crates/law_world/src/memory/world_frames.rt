//! The frames of a driver along the run of each script (EHCI 1.0, 4.6 and 4.7; USB 2.0, 5.11.3 and 11.18): at each moment each frame has what is due in
//! it, each once, while endpoints are opened, cancelled and served.
//!
//! The module has no code of its own: each function is a law over the definitions of `bus_world`, and its body is empty.

mod laws;

pub use laws::each_moment_keeps_the_schedule;

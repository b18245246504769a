//! Worlds with OUT endpoints (EHCI 1.0, 4.8 and 4.10; USB 2.0, 5.8 and 8.6): what their report tells of puts, and what their devices took.
//!
//! - `leave_laws`, `leave_worked`: What is sent of puts in a world of bulk and control endpoints while endpoints leave the ring, and are given back (EHCI 1.0, 4.8.2 and
//!   4.10; USB 2.0, 5.8 and 8.6).
//! - `report_laws`, `report_worked`: What the report of a world says that the devices of OUT endpoints took, beside what was put to them (USB 2.0, 5.8.3, 8.5
//!   and 8.6): where each device took bytes of its endpoint's puts, and no others, what a closing line of the report tells of it begins the endpoint's stream;
//!   and at the end of a run all streams of the report are right then.
//! - `world_laws`: Worlds of bulk and control endpoints, with what their drivers have still to send (EHCI 1.0, 3.5.4 and 4.10; USB 2.0, 5.8 and 8.6): at each moment of such
//!   a run what the device of an OUT endpoint took begins the bytes that were put to it.
//!
//! The module has no code of its own: each function is a law, and its body is empty.

pub mod leave_laws;
pub mod leave_worked;
pub mod report_worked;
pub mod world_laws;

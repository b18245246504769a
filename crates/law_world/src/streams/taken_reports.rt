//! What the report of a world tells of OUT endpoints (USB 2.0, 8.5 and 8.6): data that were acknowledged have arrived, so the bytes that are told of an
//! endpoint begin those that its device took, which a closing line of the report tells.
//!
//! The module has no code of its own: each function is a law over the definitions of `right_reports`, `scripted_takers` and `law_world_steps`, and its body is empty.

pub mod laws;
pub mod worked;

//! What a script tells endpoints and host to send is bytes: each number is below 256, where a text spells the script.
//!
//! The module has no code of its own: each function is a law over the definitions of `script_text`, and its body is empty.

pub mod laws;
pub mod worked;

//! Scripts as texts: their grammar, their spelling, their bytes and their numbers.
//!
//! - `byte_answers`: What a bus can be heard to say is bytes (USB 2.0, 8.3.4): each number in the data of each answer is below 256, whoever is asked and
//!   whatever was asked before.
//! - `script_bytes`: What a script tells endpoints and host to send is bytes: each number is below 256, where a text spells the script.
//! - `script_grammar`: Which texts spell which scripts, said line by line and without reading, and the law that reading is exact.
//! - `script_spelling`: What the words of a script's lines spell: each form by how its values are spelled, and the laws that reading is exact.
//!
//! The crate has no code of its own: each function is a law, and its body is empty.
#![tactic(auto)]

pub mod byte_answers;
pub mod laws;
pub mod script_bytes;
pub mod script_grammar;
pub mod script_spelling;
pub mod worked;

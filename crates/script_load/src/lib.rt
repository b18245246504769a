//! The load script: a script of forty endpoints at high speed and behind two hubs, whose periods, lengths and seeds are drawn from one number.
//!
//! `load_text` gives the text; contracts see it as `load_text` of specs/Load.antt. It is a script like any other, so what it means is what
//! `script_text` reads of it.
#![tactic(auto)]

mod draws;
pub mod laws;
mod lines;
mod parts;
mod text;
pub mod worked;

pub use text::load_text;

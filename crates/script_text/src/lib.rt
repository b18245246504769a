//! Reading the text of a script: the script that it spells, or its first fault by line and cause.
//!
//! `parse` is what others call; `print_fault` and `print_check` write its answers to any sink, and `is_image` tells an
//! image from a text. The lines are in docs/FORMATS.md; setup data are those of USB 2.0, 9.3, the period of an endpoint
//! that of 5.7.4. Beside it, `script_forms` has the table of lines, `script_world` what may follow what, `report_text` the
//! report.
#![tactic(auto)]

mod lines;
mod parsing;
mod printing;
pub mod worked;

pub use parsing::{TextError, parse};
pub use printing::{is_image, print_check, print_fault};
pub use script_forms::TextWhy;

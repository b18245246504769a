//! Scripts that a host carries out: each that a text spells keeps the ranges that memory, devices and driver have.
//!
//! `read` is what others call. Beside it stand `script_text`, which reads texts, and `drv_table` and `endpoint_script`, whose ranges
//! specs/Fits.antt names.
#![tactic(auto)]

mod reading;

pub use reading::read;
pub use script_text::TextError;

//! A script as far as it is read: which lines may follow, by ranges, declarations and limits, and what each line adds.
//!
//! `Draft` is what others call: `is_late` of a first word, `take` of what a line says, `into_script` at the end.
//! Packet sizes and periods are those of USB 2.0 (5.5.3, 5.6.3, 5.7.3 and 5.8.3), a data stage's length that of its setup
//! data (9.3). Beside it, `script_forms` has the forms of the lines, and `script_text` reads whole texts.
#![tactic(auto)]

mod bytes;
mod causes;
mod changes;
mod devices;
mod draft;
mod endpoints;
mod lookups;
mod ranges;
pub mod worked;

pub use draft::Draft;

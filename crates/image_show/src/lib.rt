//! The text that shows a memory image of a host: its lists of structures (EHCI 1.0, section 3).
//!
//! `decode_any` reads an image, whose words may begin at any page; `show` writes its text, and `print_refusal` the line of bytes that are no
//! image. The layouts are those of `qh_qtd` and `itd_sitd`.
#![tactic(auto)]

mod base;
mod chain;
mod ending;
mod failure;
mod frames;
mod image_at;
pub mod laws;
mod line;
mod lines;
mod queue;
mod reading;
mod showing;
pub mod shown_laws;
mod structure;
mod structures;

pub use failure::ShowError;
pub use image_at::ImageAt;
pub use reading::decode_any;
pub use showing::{print_refusal, show};

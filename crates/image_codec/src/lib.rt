//! Memory images of a host: the bytes of an image, both ways.
//!
//! `decode` and `encode`. `image_show` shows an image.
#![tactic(auto)]

mod image;
pub mod laws;
mod page;
mod reading;
mod writing;

pub use image::{Image, ImageError, ImageWhy, Refusal};
pub use page::Page;
pub use reading::{decode, field, words_of};
pub use writing::encode;

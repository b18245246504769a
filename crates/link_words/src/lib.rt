//! Link words of the EHCI structures (EHCI 1.0, section 3), and the words in which layouts are written.
//!
//! `read` and `write` are for links, `read_qtd` and `write_qtd` for those of a queue; specs/Layout.antt has the tables' own words, which
//! `qh_qtd` and `itd_sitd` beside it use for whole structures.
#![tactic(auto)]

mod conversions;
mod fields;
mod kinds;
mod laws;
mod pages;
mod reading;
mod refusal;
mod word_bits;

pub use fields::{LinkBits, ShortLink};
pub use kinds::{Link, QtdLink};
pub use laws::worked_words;
pub use pages::{page_bad_bit, page_word};
pub use reading::{read, read_qtd, write, write_qtd};
pub use refusal::Bad;
pub use word_bits::{address, bit, field, first_set};

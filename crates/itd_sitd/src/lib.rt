//! Isochronous transfer descriptors (EHCI 1.0, 3.3 and 3.4): their words read and written.
//!
//! `Itd::read`, `Sitd::read` and their `write`; one microframe of an iTD is `ItdSlot`. Queue heads and qTDs stand beside it in `qh_qtd`.
#![tactic(auto)]

mod itd;
mod laws;
mod sitd;
mod slot;

pub use itd::Itd;
pub use laws::worked_layouts;
pub use link_words::Bad;
pub use sitd::Sitd;
pub use slot::ItdSlot;

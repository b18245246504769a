//! What an event of the controller reads (EHCI 1.0, 2.3.2, 4.6 and 4.10): words of Lent blocks alone. Whatever the words of the others are, the event is
//! the same: so nothing that its driver has for itself, or has given back, has a part in it.
//!
//! The module has no code of its own: each function is a law over the definitions of `hc_core`, and its body is empty.

mod laws;
mod worked;

pub use laws::each_event_reads_lent_words;
pub use worked::the_second_block_is_not_read;

//! What the controller touches at each moment of a script (EHCI 1.0, 4.6, 4.8.2 and 4.10): words of Lent blocks alone. What the driver gives back, at
//! the advance interrupt as elsewhere, is Free right after; so, moment by moment, no word of it is read or written until it is lent.
//!
//! The module has no code of its own: each function is a law over the definitions of `bus_world`, and its body is empty.

mod laws;
mod worked;

pub use laws::each_moment_keeps_to_lent_blocks;
pub use worked::a_word_of_a_kept_block;

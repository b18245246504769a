//! What an event of the ring's walk writes (EHCI 1.0, 4.8 to 4.10): words of Lent blocks alone, whatever stands in memory. So neither what the driver
//! has for itself nor what nobody has is ever changed by it.
//!
//! The module has no code of its own: each function is a law over the definitions of `async_walk`, and its body is empty.

mod laws;
mod worked;

pub use laws::each_event_writes_lent_words;
pub use worked::a_kept_block_stays;

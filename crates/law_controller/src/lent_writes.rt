//! What an event of the controller writes (EHCI 1.0, 4.6 to 4.12): words of Lent blocks alone, whatever stands in memory and whatever is heard, for
//! queue heads, iTDs and siTDs. So nothing that its driver has for itself, and nothing that nobody has, is ever changed by it.
//!
//! The module has no code of its own: each function is a law over the definitions of `hc_core`, and its body is empty.

mod laws;
mod worked;

pub use laws::each_event_of_the_controller_writes_lent_words;
pub use worked::a_microframe_of_an_itd;

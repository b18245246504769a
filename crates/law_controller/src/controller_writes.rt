//! What an event of the controller leaves of memory (EHCI 1.0, 3.6, 4.8 and 4.10): over a ring of queue heads, and a frame list without structures or a
//! periodic schedule that is off, it writes words of Lent blocks alone, and of no queue head its first three.
//!
//! The module has no code of its own: each function is a law over the definitions of `hc_core` and `controlled_streams`, and its body is empty.

mod laws;
mod worked;

pub use laws::each_event_leaves_the_rest;
pub use worked::an_overlay_leaves_the_front;

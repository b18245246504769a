//! Addresses that the controller follows are multiples of 32 (EHCI 1.0, 3.1, 3.3.1, 3.4.1, 3.5.1, 3.6, 4.6 and 4.8), at each moment and whatever
//! stands in memory: what it has in hand, and what its links lead to. So each of its events writes words of Lent blocks alone.
//!
//! The module has no code of its own: each function is a law over the definitions of `hc_core`, and its body is empty.

mod laws;
mod worked;

pub use laws::{
    a_new_controller_is_aligned, an_aligned_controller_writes_lent_words,
    each_event_keeps_addresses_aligned,
};
pub use worked::low_bits_are_no_address;

//! Where an event of the controller may write (EHCI 1.0, 3.3.2, 3.4.3, 3.6.3, 4.7.1, 4.10.2 and 4.10.4 to 4.10.6), whatever stands in memory: the overlay
//! of the queue head in hand and its current qTD's token, the word of the iTD's microframe, words 3 to 5 of the siTD, and the words of the bytes that
//! were heard. So it leaves each link word, but where it lies in a buffer or in the second block of what is in hand.
//!
//! The module has no code of its own: each function is a law over the definitions of `hc_core`, and its body is empty.

mod laws;
mod worked;

pub use laws::{a_link_word_stays, each_event_writes_its_places};
pub use worked::a_token_is_no_link;

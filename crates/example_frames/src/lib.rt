//! A controller that runs over a ring of queue heads and the frames, by calls of `hc_core` (EHCI 1.0, 4.1, 4.6 to 4.10 and 4.12.3): each call is told by what
//! it does to the structures in memory, both stay, and no word is refused.
#![tactic(auto)]

mod laws;
mod runs;
mod streams;
mod worked;

pub use laws::each_event_leaves_both;
pub use runs::{event, run};
pub use streams::{
    a_complete_split_is_in_one_hand, a_complete_split_tells_more, a_missed_split_tells_the_same,
    a_nyet_leaves_the_device_ahead, a_turned_toggle_breaks_the_pipe,
};
pub use worked::both_are_under_way;

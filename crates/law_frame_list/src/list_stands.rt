//! The frame list of a driver in memory (EHCI 1.0, 3.1, 3.3.1 and 4.6): the words of a driver that was just built stand for its list, and stand for it wherever
//! the elements and the links of the members are left, as by every event of the driver that stores no word.
//!
//! The module has no code of its own: each function is a law over the definitions of `drv_table` and `frame_words`, and its body is empty.

mod laws;

pub use laws::{
    a_new_list_stands, it_stands_where_its_words_are_left, quiet_events_keep_it_standing,
};

//! What a driver reports of the qTDs that it harvests (EHCI 1.0, 3.5.4 and 4.10): the bytes that were moved of each, once and in order; until a transfer is
//! done they are held back, as notes and in buffers that no event changes any more.
//!
//! The module has no code of its own: each function is a law over the definitions of `drv_table` and `law_ring`, and its body is empty.

mod laws;
mod worked;

pub use laws::{
    a_found_qtd_is_done, events_keep_what_is_done, harvest_takes_first, report_is_read,
    what_is_held_grows_and_stays,
};
pub use worked::of_three_qtds;

//! The frame list while commands are accepted (EHCI 1.0, 4.6, 4.7, 4.8 and 4.10). The open of an interrupt endpoint writes its queue head, whose link leads to
//! what will be behind it, and begins to link it; transfers, requests and isochronous descriptors are written into runs of their own.
//! So the words of memory stand for the list after each accepted command.
//!
//! The module has no code of its own: each function is a law over the definitions of `drv_table`, and its body is empty.

mod laws;
mod worked;

pub use laws::{
    commands_keep_it_standing, descriptors_keep_it_standing,
    opens_of_interrupt_endpoints_keep_it_standing, transfers_keep_it_standing,
};
pub use worked::a_new_queue_head_leads_on;

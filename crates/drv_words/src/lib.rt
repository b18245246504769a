//! The words that the driver writes (EHCI 1.0, 3.5, 3.6 and 4.10): queue heads, qTDs, and how a transfer is cut into qTDs.
//!
//! `new_queue_head` and `qtd_of` make the structures, `Cut` tells the qTDs of a transfer one by one. Their values are those of
//! specs/Words.antt of `drv_table`. Beside it stands `qh_qtd`, which writes structures as words.
#![tactic(auto)]

mod cuts;
mod words;

pub use cuts::Cut;
pub use words::{
    HEAD_BLOCK, head_of_ring, inactive_qtd, is_for_control, new_interrupt_head, new_queue_head,
    qtd_of,
};

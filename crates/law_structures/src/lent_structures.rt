//! Structures in memory that runs lent to the controller hold (EHCI 1.0, 3.5, 3.6 and 4.10): what is told of them, of what a transaction settles in them and of
//! what is written back.
//!
//! - `structure_laws`, `structure_worked`: Memory told by the structures that stand in it, and what the writes of controller and driver leave of it (EHCI 1.0,
//!   3.3 to 3.6 and 4.10).
//! - `settlement_laws`: What one transaction of a queue head leaves of the host's side of its transfer (EHCI 1.0, 3.5.3, 4.10.3 to 4.12 and 4.15; USB 2.0, 8.5
//!   and 8.6): how many bytes are left, which toggle comes next, how many errors, and whether it goes on. `a_transaction_settles` says it of each token, plain
//!   or split, whatever is heard.
//! - `queue_laws`: The structures of one queue head, and what the controller's writes leave of them (EHCI 1.0, 3.5, 3.6 and 4.10): a part that is sound, in
//!   which links lead to qTDs that are there and a published qTD has its buffer, stays sound.
//! - `write_back_laws`, `write_back_worked`: What an advance and a write-back of the walk leave of memory that is told by its structures, and what a
//!   transaction sends (EHCI 1.0, 4.10).
//!
//! The module has no code of its own: each function is a law, and its body is empty.

mod queue_laws;
mod settlement_laws;
pub mod structure_laws;
pub mod structure_worked;
pub mod write_back_laws;
pub mod write_back_worked;

pub use queue_laws::{
    a_queue_head_alters_nothing, a_token_alters_its_qtd, an_altered_part_is_sound,
};
pub use settlement_laws::a_transaction_settles;

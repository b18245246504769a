//! What the walks of both schedules share: the copy of a queue head in hand, the transaction that comes next for it, the bytes of its
//! buffer, and its write-back (EHCI 1.0, 3.6, 4.10 and 4.12).
//!
//! A walk reads a queue head into a `Held` and asks `visit` what there is to do. It then takes a qTD (`take_qtd`), makes the transaction
//! that `next_transaction` tells (`read_out`, `transact`), or writes back what that came to (`write_back`, `raise`).
//! `load_bytes` and `store_bytes` serve any list of pages. Beside it stand `mem_queues`, which reads the structures, and
//! `transactions`, which makes an exchange on the wire.
#![tactic(auto)]

mod buffer;
mod held;
mod overlay;
mod planning;
mod transacting;
mod visits;
pub mod worked;
mod writing;

pub use buffer::{load_bytes, read_out, store_bytes};
pub use held::{Held, Transaction, Visit};
pub use planning::{next_transaction, pid_of, pipe};
pub use transacting::{settle, transact};
pub use visits::{pointer, visit};
pub use writing::{raise, take_qtd, write_back};

//! The ring of queue heads under the walk and its driver (EHCI 1.0, 4.8 to 4.12; USB 2.0, 8.6), for any number of queue heads and qTDs:
//! where the walk is, what each of its events moves, and what a row of the driver leaves.
//!
//! - `front_laws`, `front_worked`: How far the walk has gone along the qTDs of a queue head (EHCI 1.0, 4.10.2), so that those behind it, done or passed over,
//!   may be given back.
//! - `halt_laws`, `halt_worked`: A queue that was halted stops there (EHCI 1.0, 4.10.3 and 4.12), so that nothing is moved of the qTDs behind.
//! - `lend_laws`: Structures of one queue head that are lent together, while the controller walks its ring (EHCI 1.0, 4.10).
//! - `order_laws`: The qTDs of a queue head in their order (EHCI 1.0, 4.10): each transaction adds to the end of what was moved of all of them together, and
//!   what is told of a qTD that is done is what stands in memory.
//! - `out_pipe_laws`: The pipe of an OUT endpoint of a ring (EHCI 1.0, 4.10 and 4.11; USB 2.0, 8.6): over any bus whose devices take their streams by the
//!   toggle, and that loses packets as it likes, each event of the walk keeps both sides agreed: the device took the bytes that the host knows to be taken, or
//!   besides them the packet that the host sends next.
//! - `pipe_laws`: The pipes of all IN endpoints of a ring at once (EHCI 1.0, 4.10; USB 2.0, 8.6). Over any bus whose devices send their streams by the toggle,
//!   and that loses packets as it likes, each event of the walk keeps both sides of each pipe agreed: the packets that the host took are the first ones of the
//!   stream, each once and in order, and each was put into the buffer of the qTD that was current.
//! - `release_laws`, `release_worked`: Structures of one queue head that are given back together, while the controller walks its ring (EHCI 1.0, 4.10).
//! - `spared_laws`: Steps of a driver that spare what is told of a ring's endpoints (EHCI 1.0, 4.8 and 4.10): where the overlays of queue heads, the published
//!   qTDs and their buffers stay, so do the bytes moved, the toggles, both sides of each pipe and what is still to be harvested; a qTD that is published has no
//!   bytes yet.
//! - `store_laws`, `store_worked`: What a driver's stores, lends and returns of runs leave of a ring of queue heads while the controller walks it (EHCI 1.0,
//!   4.8 and 4.10).
//! - `stream_laws`: The streams of the ring's endpoints (EHCI 1.0, 4.8 to 4.10): memory and the copy in hand tell of each qTD which bytes of its buffer were
//!   moved, and of each endpoint its toggle. Each event of the walk is one transaction of one endpoint, by which the bytes of its current qTD grow, or nothing
//!   is told otherwise.
//! - `walk_laws`: The walk of the ring over the structures in memory (EHCI 1.0, 4.8 to 4.10): over any ring of any number of queue heads, wherever the walk is,
//!   each of its events is one transaction of one of them, or asks nothing; it changes that queue head's structures alone, as told, and is never the fault.
//! - `walk_writes`: What an event of the ring's walk writes (EHCI 1.0, 4.8 to 4.10): words of Lent blocks alone, whatever stands in memory.
//!
//! The crate has no code of its own: each function is a law, and its body is empty.
#![tactic(auto)]

mod front_laws;
mod front_worked;
mod halt_laws;
mod halt_worked;
pub mod lend_laws;
mod order_laws;
mod out_pipe_laws;
mod pipe_laws;
pub mod release_laws;
pub mod release_worked;
mod spared_laws;
pub mod store_laws;
pub mod store_worked;
mod stream_laws;
mod walk_laws;
pub mod walk_writes;

pub use front_laws::{a_queue_has_a_tail, a_row_spares_the_front, each_event_moves_the_front_on};
pub use halt_laws::{
    a_halt_stops_what_is_behind, a_row_spares_the_halt, each_event_keeps_the_halt,
};
pub use order_laws::{a_done_qtd_is_told_by_memory, each_event_adds_to_the_end};
pub use out_pipe_laws::each_event_keeps_an_out_pipe;
pub use pipe_laws::{accepted_bytes_begin_each_stream, each_event_keeps_the_pipes};
pub use spared_laws::{
    spared_pipes_agree, stores_leave_the_hand, what_is_published_is_accounted_for,
    what_is_spared_is_told,
};
pub use stream_laws::each_event_moves_one_stream;
pub use walk_laws::each_event;

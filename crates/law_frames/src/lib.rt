//! The walk of the frame list (EHCI 1.0, 4.4 to 4.7 and 4.12): over any chains of queue heads and descriptors, what each of its events
//! reads, writes and moves.
//!
//! - `fetch_laws`, `fetch_worked`: Each event of the walk of the frames while nothing is in hand, over the structures in memory (EHCI 1.0, 4.6 and 4.7.1): the
//!   structure that the cursor's link names is read into the copy in hand, or the chain has ended; it is never the fault.
//! - `framed_fronts`: Fronts of the queues of interrupt endpoints, whose queue heads stand in the frames (EHCI 1.0, 4.6 and 4.10): how far each has gone along
//!   its qTDs.
//! - `itd_back_laws`, `itd_back_worked`: An iTD in hand over the structures in memory (EHCI 1.0, 3.3.2 and 4.7.1): what its transactions send, and what its
//!   write-back leaves.
//! - `itd_step_laws`, `itd_step_worked`: Each event of the walk of the frames while an iTD is in hand, over the structures in memory (EHCI 1.0, 4.6 and 4.7.1):
//!   it passes on, makes one transaction, or writes the microframe back; it is never the fault.
//! - `part_laws`, `part_worked`: The frames over the structures in memory (EHCI 1.0, 3 and 4.6): whom the walk of the frames may meet, what is owed to each,
//!   what the walk has in hand, and what one event of it may do to them. The definitions of `specs/` say so for any frames, wherever the walk is.
//! - `queue_step_laws`, `queue_step_worked`: The walk of the frames with a queue head of an interrupt endpoint in hand, over the structures in memory (EHCI
//!   1.0, 4.6, 4.10 and 4.12.2): whatever the rest of the frames is, each of its events has one of the effects of `law_frames`, never the fault, and leaves a frame.
//! - `queue_visit_laws`, `queue_visit_worked`: A visit to the queue head of an interrupt endpoint over the structures in memory (EHCI 1.0, 4.10.2 to 4.10.6
//!   and 4.12.2): whichever event of it comes, also of a split transaction, the queue head stays one that the walk of the frames may meet, and memory is told.
//! - `sitd_back_laws`, `sitd_back_worked`: A siTD in hand over structures in memory (EHCI 1.0, 3.4, 4.12.3 and 4.15.2.4): its transaction sends the bytes of
//!   its buffer, what comes in is put there, and its write-back finds all its words, also where a microframe was missed.
//! - `sitd_step_laws`, `sitd_step_worked`: Each event of the walk of the frames while it has a siTD in hand (EHCI 1.0, 4.6 and 4.12.3): it passes on, makes the
//!   siTD's transaction, or writes back what the transaction came to or that a microframe was missed. No fault is one.
//! - `split_worked`: A split transaction of a full-speed interrupt endpoint, computed (EHCI 1.0, 4.12.2): its start-split, a complete-split, and a missed one.
//! - `step_laws`, `step_worked`: One event of the walk of the frames over the structures in memory (EHCI 1.0, 4.6): what is claimed of it, whatever is in hand.
//! - `stream_laws`, `stream_worked`: The streams of interrupt endpoints in the frames (EHCI 1.0, 4.6, 4.10 and 4.12.2): memory and the
//!   copy in hand tell of each qTD which bytes of its buffer were moved, as in a ring. Each event is one transaction of one endpoint, by
//!   which the bytes of its current qTD grow, or nothing is told otherwise.
//! - `walk_laws`, `walk_worked`: The walk of the frames over the structures in memory (EHCI 1.0, 4.6, 4.7.1, 4.10 and 4.12.3): over any frames whose structures
//!   are sound, wherever the walk is and whatever it has in hand, each of its events reads one structure, passes on, takes a qTD, makes one transaction, or
//!   writes one back; it changes that structure's part alone, as told, and is never the fault. So it is for however many events.
//!
//! The crate has no code of its own: each function is a law, and its body is empty.
#![tactic(auto)]

mod fetch_laws;
mod fetch_worked;
pub mod framed_fronts;
mod itd_back_laws;
mod itd_back_worked;
mod itd_step_laws;
mod itd_step_worked;
mod part_laws;
mod part_worked;
mod queue_step_laws;
mod queue_step_worked;
mod queue_visit_laws;
mod queue_visit_worked;
mod sitd_back_laws;
mod sitd_back_worked;
mod sitd_step_laws;
mod sitd_step_worked;
mod split_worked;
mod step_laws;
mod step_worked;
pub mod stream_laws;
pub mod stream_worked;
mod walk_laws;
mod walk_worked;

pub use fetch_laws::{cursor_is_read, each_event_with_nothing_in_hand, no_traversal_node_is_met};
pub use fetch_worked::{a_chain_is_read, a_queue_head_is_read};
pub use itd_back_laws::{itd_is_sent, itd_is_written_back};
pub use itd_back_worked::a_microframe_is_written_back;
pub use itd_step_laws::{each_event_at_an_itd, heard_keeps_copy};
pub use itd_step_worked::{a_packet_that_is_too_long, a_transaction_at_an_itd};
pub use part_laws::{
    a_linked_part_is_a_members, a_members_part_is_linked, a_transaction_turns_a_sitd,
    an_altered_queue_part_is_sound, its_place_moves_on, what_is_fetched_is_what_stands,
    where_nothing_is_met_nothing_is_in_hand,
};
pub use part_worked::{
    a_frame_is_met, a_frame_of_two, an_itd_is_fetched, two_bytes_are_written_back,
};
pub use queue_step_laws::{each_event_at_a_queue_head, each_event_at_a_settled_queue_head};
pub use queue_step_worked::a_queue_head_is_worked;
pub use queue_visit_laws::{
    a_miss_settles, a_transaction_settles, an_advance_keeps_the_visit, hand_is_settled,
    transaction_sends_its_bytes, what_a_split_notes, write_back_keeps_visit,
};
pub use queue_visit_worked::{a_visit, a_visit_goes_on};
pub use sitd_back_laws::{
    a_write_back_of_a_sitd_is_told, missed_is_in_hand, received_is_put, sitd_is_sent,
    transacted_is_in_hand,
};
pub use sitd_back_worked::two_bytes;
pub use sitd_step_laws::each_event_at_a_sitd;
pub use sitd_step_worked::a_sitd_in_hand;
pub use split_worked::{
    a_complete_split, a_complete_split_is_written, a_missed_complete_split, a_start_split,
    a_start_split_is_walked, a_start_split_is_written,
};
pub use step_laws::{
    no_fault_has_an_effect, no_step_refuses_a_word, the_event_is_that_of_what_is_in_hand,
};
pub use step_worked::an_itd_comes_first;
pub use walk_laws::{
    a_walk_goes_on, each_event, no_event_is_a_fault, no_word_is_refused, unmet_stays,
};
pub use walk_worked::a_chain_is_walked;

//! What went over a bus in a transaction: who heard what, and its packets as bytes, each with its time (USB 2.0, 8.3 to 8.5).
//!
//! `Exchange` tells a transaction, and `Passed` one below a translator, with the bytes of its data. `put_frame` and `put_packets` append
//! the packets to a capture with an interface for each speed; specs/Packets.antt has them as `frame_record` and `exchange_record`,
//! specs/Times.antt the time of each. A lost packet isn't there, and of a damaged one a bit of its last byte is turned round, so that its
//! check tells.
#![tactic(auto)]

mod exchanges;
mod heard;
mod packets;
mod records;
mod times;
pub mod worked;

pub use exchanges::{Answer, Exchange, Fates, Passed};
pub use heard::{has_answer, is_acknowledged, is_heard, sends_data};
pub use packets::{put_frame, put_packets};
pub use times::end_of;

//! Packets of the bus as bytes, and a file of them (USB 2.0, 8.3 to 8.5).
//!
//! `token_bytes`, `split_bytes`, `data_bytes` and `handshake_bytes` give a packet with its checks as its bytes go, each byte with its lowest
//! bit first; `file_header`, `put_packet_header` and `put_packet_tail` what stands before all packets, and before and behind each, in a
//! capture with an interface for each speed. specs/Packets.antt and specs/Capture.antt say what the bytes are.
#![tactic(auto)]

mod capture;
mod checks;
mod packets;
pub mod worked;

pub use capture::{file_header, put_packet_header, put_packet_tail};
pub use checks::{check5, check16};
pub use packets::{SplitPacket, handshake_bytes, put_data, split_bytes, token_bytes};

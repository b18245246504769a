//! A packet in its block.
ghost use Rattle.std.specs.Prelude.{◌≡◌, ◌≤◌, ◌+◌, ◌++◌, IfOk, length};
ghost use Rattle.bus_capture.specs.Capture.{packet_tail};
ghost use Rattle.bus_capture.specs.Packets.{data_bytes};
ghost use Rattle.bus_packets.specs.Packets.{nanos_of, interface_of, header_at, record_at, turned, turned_last, damaged_check, fated};

use bus_capture::{check16, handshake_bytes, put_data, put_packet_header, put_packet_tail};
use usb_base::{Fate, Memory, Pid, Speed};

/// The nearest number of nanoseconds.
fn nanos_of(ps: u64) -> u64
    ensures { result ≡ nanos_of ps }
{
    ps / 1000 + (ps % 1000 + 500) / 1000
}

fn interface_of(speed: Speed) -> u32
    ensures { result ≡ interface_of speed }
{
    match speed {
        Speed::High => 0,
        Speed::Full => 1,
        Speed::Low => 2,
    }
}

/// Appends what stands before a packet of so many bytes, at a time in picoseconds.
fn put_header(to: &mut Vec<u8>, speed: Speed, ps: u64, bytes: u32) -> Result<(), Memory>
    requires { bytes ≤ 1027 }
    ensures { IfOk result (λ _. to.new.items ≡ to.old.items ++ header_at speed ps bytes) }
{
    put_packet_header(to, interface_of(speed), nanos_of(ps), bytes)
}

/// Appends a packet in its block.
#[tactic(auto, unfolding(crate::specs::Packets::record_at))]
pub fn put_record(to: &mut Vec<u8>, speed: Speed, ps: u64, bytes: &[u8]) -> Result<(), Memory>
    requires { length bytes.now ≤ 1024 }
    ensures { IfOk result (λ _. to.new.items ≡ to.old.items ++ record_at speed ps bytes.now) }
{
    put_header(to, speed, ps, bytes.len() as u32)?;
    to.extend_from_slice(bytes)?;
    put_packet_tail(to, bytes.len() as u32)
}

/// A byte with its highest bit turned round.
pub fn turned(n: u8) -> u8
    ensures { result ≡ turned n }
{
    ((n as u32 + 128) % 256) as u8
}

/// The check of a damaged data packet.
fn damaged_check(check: u32) -> [u8; 2]
    ensures { result ≡ damaged_check check }
{
    [(check % 256) as u8, turned((check / 256 % 256) as u8)]
}

/// Appends a data packet as it was damaged.
#[tactic(auto, using(crate::proofs::Damage::damaged_data))]
fn put_damaged(to: &mut Vec<u8>, pid: Pid, bytes: &[u8]) -> Result<(), Memory>
    ensures { IfOk result (λ _. to.new.items ≡ to.old.items ++ turned_last (data_bytes pid bytes.now)) }
{
    to.extend_from_slice(&handshake_bytes(pid))?;
    to.extend_from_slice(bytes)?;
    to.extend_from_slice(&damaged_check(check16(bytes)))?;
    Ok(())
}

/// Appends what stands before a data packet with these bytes, which has three more.
fn put_data_header(to: &mut Vec<u8>, speed: Speed, ps: u64, bytes: &[u8]) -> Result<(), Memory>
    requires { length bytes.now ≤ 1024 }
    ensures { IfOk result (λ _. to.new.items ≡ to.old.items ++ header_at speed ps (length bytes.now + 3)) }
{
    put_header(to, speed, ps, bytes.len() as u32 + 3)
}

/// Appends what stands behind it.
fn put_data_tail(to: &mut Vec<u8>, bytes: &[u8]) -> Result<(), Memory>
    requires { length bytes.now ≤ 1024 }
    ensures { IfOk result (λ _. to.new.items ≡ to.old.items ++ packet_tail (length bytes.now + 3)) }
{
    put_packet_tail(to, bytes.len() as u32 + 3)
}

/// Appends a data packet in its block.
fn put_good_record(
    to: &mut Vec<u8>,
    speed: Speed,
    ps: u64,
    pid: Pid,
    bytes: &[u8],
) -> Result<(), Memory>
    requires { length bytes.now ≤ 1024 }
    ensures { IfOk result (λ _. to.new.items ≡ to.old.items ++ record_at speed ps (data_bytes pid bytes.now)) }
{
    put_data_header(to, speed, ps, bytes)?;
    put_data(to, pid, bytes)?;
    put_data_tail(to, bytes)
}

/// Appends a damaged data packet in its block.
fn put_damaged_record(
    to: &mut Vec<u8>,
    speed: Speed,
    ps: u64,
    pid: Pid,
    bytes: &[u8],
) -> Result<(), Memory>
    requires { length bytes.now ≤ 1024 }
    ensures { IfOk result (λ _. to.new.items ≡ to.old.items ++ record_at speed ps (turned_last (data_bytes pid bytes.now))) }
{
    put_data_header(to, speed, ps, bytes)?;
    put_damaged(to, pid, bytes)?;
    put_data_tail(to, bytes)
}

/// Appends a data packet as it went, in its block.
#[tactic(auto, unfolding(crate::specs::Packets::fated))]
pub fn put_data_record(
    to: &mut Vec<u8>,
    speed: Speed,
    ps: u64,
    fate: Fate,
    pid: Pid,
    bytes: &[u8],
) -> Result<(), Memory>
    requires { length bytes.now ≤ 1024 }
    ensures { IfOk result (λ _. to.new.items ≡ to.old.items ++ fated speed ps fate (data_bytes pid bytes.now)) }
{
    match fate {
        Fate::Lost => Ok(()),
        Fate::Good => put_good_record(to, speed, ps, pid, bytes),
        Fate::Damaged => put_damaged_record(to, speed, ps, pid, bytes),
    }
}

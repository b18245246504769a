//! Packets as bytes.
ghost use Rattle.std.specs.Prelude.{◌≡◌, ◌≤◌, ◌++◌, ◌/◌, IfOk};
ghost use Rattle.bus_capture.specs.Packets.{pid_byte, low_byte, token_fields, token_word, token_bytes, bit, split_fields, split_word, split_bytes, check_bytes, data_bytes, handshake_bytes};

use crate::checks::{check5, check16};
use usb_base::{Memory, Pid};

/// The fields of a SPLIT packet (USB 2.0, 8.4.2).
#[derive(Clone, Copy, Debug, PartialEq, Eq)]
pub struct SplitPacket {
    /// The address of the hub, 0 to 127.
    pub hub: u8,
    /// It begins a complete-split, and not a start-split.
    pub complete: bool,
    /// The port of the hub, 0 to 127.
    pub port: u8,
    /// The S bit: a low-speed device for control and interrupt; the data begin with this start-split for an isochronous OUT.
    pub speed: bool,
    /// The E bit: the data end with this start-split, for an isochronous OUT alone.
    pub end: bool,
    /// The transfer type in its two bits: 0 control, 1 isochronous, 2 bulk, 3 interrupt.
    pub kind: u8,
}

fn pid_byte(pid: Pid) -> u8
    ensures { result ≡ pid_byte pid }
{
    match pid {
        Pid::Out => 0xe1,
        Pid::In => 0x69,
        Pid::Sof => 0xa5,
        Pid::Setup => 0x2d,
        Pid::Data0 => 0xc3,
        Pid::Data1 => 0x4b,
        Pid::Data2 => 0x87,
        Pid::Mdata => 0x0f,
        Pid::Ack => 0xd2,
        Pid::Nak => 0x5a,
        Pid::Stall => 0x1e,
        Pid::Nyet => 0x96,
        Pid::Err => 0x3c,
        Pid::Split => 0x78,
        Pid::Ping => 0xb4,
    }
}

fn low_byte(n: u32) -> u8
    ensures { result ≡ low_byte n }
{
    (n % 256) as u8
}

fn token_fields(addr: u8, ep: u8) -> u32
    ensures fields { result ≡ token_fields addr ep }
    ensures few { result ≤ 2047 }
{
    (addr % 128) as u32 + 128 * (ep % 16) as u32
}

fn token_word(addr: u8, ep: u8) -> u32
    ensures { result ≡ token_word addr ep }
{
    let fields = token_fields(addr, ep);
    fields + 2048 * check5(fields, 11)
}

/// A token: IN, OUT, SETUP or PING, with the address of the device (0 to 127) and the number of the endpoint (0 to 15).
pub fn token_bytes(pid: Pid, addr: u8, ep: u8) -> [u8; 3]
    ensures { result ≡ token_bytes pid addr ep }
{
    let word = token_word(addr, ep);
    [pid_byte(pid), low_byte(word), low_byte(word / 256)]
}

fn bit(is: bool, value: u32) -> u32
    ensures value { result ≡ bit is value }
    ensures few { result ≤ value }
{
    if is { value } else { 0 }
}

fn split_fields(x: &SplitPacket) -> u32
    ensures fields { result ≡ split_fields x.now }
    ensures few { result ≤ 524287 }
{
    (x.hub % 128) as u32
        + bit(x.complete, 128)
        + 256 * (x.port % 128) as u32
        + bit(x.speed, 32_768)
        + bit(x.end, 65_536)
        + 131_072 * (x.kind % 4) as u32
}

fn split_word(x: &SplitPacket) -> u32
    ensures { result ≡ split_word x.now }
{
    let fields = split_fields(x);
    fields + 524_288 * check5(fields, 19)
}

/// The SPLIT packet before the token of a split transaction.
pub fn split_bytes(x: &SplitPacket) -> [u8; 4]
    ensures { result ≡ split_bytes x.now }
{
    let word = split_word(x);
    [
        pid_byte(Pid::Split),
        low_byte(word),
        low_byte(word / 256),
        low_byte(word / 65_536),
    ]
}

fn check_bytes(n: u32) -> [u8; 2]
    ensures { result ≡ check_bytes n }
{
    [low_byte(n), low_byte(n / 256)]
}

/// Appends a data packet with these bytes.
///
/// # Errors
///
/// `Memory` where it finds no room; then a front part of it may have been appended.
pub fn put_data(to: &mut Vec<u8>, pid: Pid, bytes: &[u8]) -> Result<(), Memory>
    ensures { IfOk result (λ _. to.new.items ≡ to.old.items ++ data_bytes pid bytes.now) }
{
    to.extend_from_slice(&handshake_bytes(pid))?;
    to.extend_from_slice(bytes)?;
    to.extend_from_slice(&check_bytes(check16(bytes)))?;
    Ok(())
}

/// A handshake: ACK, NAK, STALL, NYET or ERR.
pub fn handshake_bytes(pid: Pid) -> [u8; 1]
    ensures { result ≡ handshake_bytes pid }
{
    [pid_byte(pid)]
}

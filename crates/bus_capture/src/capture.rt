//! A file of packets.
ghost use Rattle.std.specs.Prelude.{◌≡◌, ◌≤◌, ◌%◌, ◌+◌, ◌++◌, IfOk};
ghost use Rattle.bus_capture.specs.Capture.{word, file_header, padded, packet_header, padding, block_header, time_words, size_words, packet_tail};

use usb_base::Memory;

/// The header of a capture with three interfaces, for packets at high, full and low speed, with times in nanoseconds.
#[tactic(auto, unfolding(crate::specs::Capture::word))]
pub fn file_header() -> [u8; 124]
    ensures { result ≡ file_header }
{
    [
        0x0a, 0x0d, 0x0d, 0x0a, 28, 0, 0, 0, 0x4d, 0x3c, 0x2b, 0x1a, 1, 0, 0, 0, 0xff, 0xff, 0xff,
        0xff, 0xff, 0xff, 0xff, 0xff, 28, 0, 0, 0, 1, 0, 0, 0, 32, 0, 0, 0, 0x27, 1, 0, 0, 0xff,
        0xff, 0, 0, 9, 0, 1, 0, 9, 0, 0, 0, 0, 0, 0, 0, 32, 0, 0, 0, 1, 0, 0, 0, 32, 0, 0, 0, 0x26,
        1, 0, 0, 0xff, 0xff, 0, 0, 9, 0, 1, 0, 9, 0, 0, 0, 0, 0, 0, 0, 32, 0, 0, 0, 1, 0, 0, 0, 32,
        0, 0, 0, 0x25, 1, 0, 0, 0xff, 0xff, 0, 0, 9, 0, 1, 0, 9, 0, 0, 0, 0, 0, 0, 0, 32, 0, 0, 0,
    ]
}

fn byte(n: u32) -> u8
    ensures { result ≡ n % 256 }
{
    (n % 256) as u8
}

#[tactic(auto, unfolding(crate::specs::Capture::word))]
fn word(n: u32) -> [u8; 4]
    ensures { result ≡ word n }
{
    [
        byte(n),
        byte(n / 256),
        byte(n / 65_536),
        byte(n / 16_777_216),
    ]
}

/// The bytes of a packet, up to a multiple of four.
fn padded(bytes: u32) -> u32
    requires { bytes ≤ 65_535 }
    ensures value { result ≡ padded bytes }
    ensures few { result ≤ 65_538 }
{
    (bytes + 3) / 4 * 4
}

fn put_word(to: &mut Vec<u8>, n: u32) -> Result<(), Memory>
    ensures { IfOk result (λ _. to.new.items ≡ to.old.items ++ word n) }
{
    to.extend_from_slice(&word(n))?;
    Ok(())
}

#[tactic(auto, unfolding(crate::specs::Capture::block_header))]
fn put_block_header(to: &mut Vec<u8>, interface: u32, bytes: u32) -> Result<(), Memory>
    requires { bytes ≤ 65_535 }
    ensures { IfOk result (λ _. to.new.items ≡ to.old.items ++ block_header interface bytes) }
{
    put_word(to, 6)?;
    put_word(to, padded(bytes) + 32)?;
    put_word(to, interface)
}

#[tactic(auto, unfolding(crate::specs::Capture::time_words))]
fn put_time(to: &mut Vec<u8>, nanos: u64) -> Result<(), Memory>
    ensures { IfOk result (λ _. to.new.items ≡ to.old.items ++ time_words nanos) }
{
    put_word(to, (nanos / 4_294_967_296) as u32)?;
    put_word(to, (nanos % 4_294_967_296) as u32)
}

#[tactic(auto, unfolding(crate::specs::Capture::size_words))]
fn put_sizes(to: &mut Vec<u8>, bytes: u32) -> Result<(), Memory>
    ensures { IfOk result (λ _. to.new.items ≡ to.old.items ++ size_words bytes) }
{
    put_word(to, bytes)?;
    put_word(to, bytes)
}

/// Appends what stands before a packet: its interface, its time in nanoseconds, and how many bytes it has.
///
/// # Errors
///
/// `Memory` where it finds no room; then a front part of it may have been appended.
#[tactic(auto, unfolding(crate::specs::Capture::packet_header))]
pub fn put_packet_header(
    to: &mut Vec<u8>,
    interface: u32,
    nanos: u64,
    bytes: u32,
) -> Result<(), Memory>
    requires { bytes ≤ 65_535 }
    ensures { IfOk result (λ _. to.new.items ≡ to.old.items ++ packet_header interface nanos bytes) }
{
    put_block_header(to, interface, bytes)?;
    put_time(to, nanos)?;
    put_sizes(to, bytes)
}

/// Appends zeros behind so many bytes, up to a multiple of four.
#[tactic(auto, unfolding(crate::specs::Capture::padding))]
fn put_padding(to: &mut Vec<u8>, bytes: u32) -> Result<(), Memory>
    ensures { IfOk result (λ _. to.new.items ≡ to.old.items ++ padding bytes) }
{
    if bytes % 4 == 1 {
        to.extend_from_slice(&[0, 0, 0])?;
        return Ok(());
    }
    if bytes % 4 == 2 {
        to.extend_from_slice(&[0, 0])?;
        return Ok(());
    }
    if bytes % 4 == 3 {
        to.extend_from_slice(&[0])?;
        return Ok(());
    }
    Ok(())
}

/// Appends what stands behind a packet of so many bytes.
///
/// # Errors
///
/// `Memory` where it finds no room; then a front part of it may have been appended.
#[tactic(auto, unfolding(crate::specs::Capture::packet_tail))]
pub fn put_packet_tail(to: &mut Vec<u8>, bytes: u32) -> Result<(), Memory>
    requires { bytes ≤ 65_535 }
    ensures { IfOk result (λ _. to.new.items ≡ to.old.items ++ packet_tail bytes) }
{
    put_padding(to, bytes)?;
    put_word(to, padded(bytes) + 32)
}

//! The checks of packets.
ghost use Rattle.std.specs.Prelude.{◌≡◌, ◌≤◌};
ghost use Rattle.bus_capture.specs.Checks.{shifted, after_bits, check5, after_bytes, check16};

/// One bit more: the lowest of `n`.
fn shifted(polynomial: u32, r: u32, n: u32) -> u32
    ensures { result ≡ shifted polynomial r n }
{
    if r % 2 == n % 2 {
        r / 2
    } else {
        (r / 2) ^ polynomial
    }
}

/// The lowest `count` bits of `n` more.
#[tactic(auto, using(crate::proofs::Bits::bits_more, crate::proofs::Bits::bits_done))]
fn after_bits(polynomial: u32, first: u32, n: u32, count: u32) -> u32
    ensures { result ≡ after_bits polynomial first n count }
{
    let mut r = first;
    let mut rest = n;
    for _bit in 0..count {
        r = shifted(polynomial, r, rest);
        rest /= 2;
    }
    r
}

/// The check of the lowest `count` bits of `n`, as of a token or a SPLIT, in its five bits (USB 2.0, 8.3.5.1).
pub fn check5(n: u32, count: u32) -> u32
    ensures check { result ≡ check5 n count }
    ensures few { result ≤ 31 }
{
    (after_bits(0x14, 0x1f, n, count) ^ 0x1f) % 32
}

/// The check of the bytes of a data packet, in sixteen bits (USB 2.0, 8.3.5.2).
#[tactic(auto, using(crate::proofs::Bits::bytes_more), unfolding(crate::specs::Checks::after_bytes))]
pub fn check16(bytes: &[u8]) -> u32
    ensures { result ≡ check16 bytes.now }
{
    let mut r = 0xffff;
    for byte in bytes {
        r = after_bits(0xa001, r, *byte as u32, 8);
    }
    (r ^ 0xffff) % 65_536
}

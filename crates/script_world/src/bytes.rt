//! Bytes of a seed, and packets.
ghost use Rattle.std.specs.Prelude.{◌≡◌, ℕ, ◌++◌, ◌∷◌, [], ◌<◌, ◌+◌, IfOk, length};
ghost use Rattle.script_world.specs.Rows.{counted};
ghost use Rattle.script_world.specs.Draft.{filled, packet_count, packets};

use script_types::Item;
use std::alloc::Global;
use usb_base::{ListOf, Memory};

/// Puts an item at the end.
pub fn push<T: Drop>(items: &mut Vec<T>, item: T) -> Result<(), Memory>
    ensures { IfOk result (λ _. items.new.items ≡ items.old.items ++ item ∷ []) }
{
    match items.push(item) {
        Ok(()) => Ok(()),
        Err(_) => Err(Memory),
    }
}

/// A count after `n` more, which stands still at the last number of 32 bits.
pub fn counted(count: u32, n: u64) -> u32
    ensures { result ≡ counted count n }
{
    if n >= 4_294_967_295 {
        return 4_294_967_295;
    }
    count.saturating_add(n as u32)
}

/// `len` bytes, byte i being the seed plus i, modulo 256.
#[tactic(auto, using(crate::proofs::Fills::range_more))]
pub fn filled(alloc: Global, len: u32, seed: u32) -> Result<Vec<u8>, Memory>
    ensures { IfOk result (λ bytes. bytes.items ≡ filled len seed) }
{
    let mut bytes = Vec::with_capacity(alloc, len as usize)?;
    let first = seed % 256;
    for i in 0..len {
        push(&mut bytes, ((first + i % 256) % 256) as u8)?;
    }
    Ok(bytes)
}

/// How many packets of `max` bytes are `len` bytes.
fn packet_count(max: usize, len: usize) -> usize
    requires { 0 < max }
    ensures { result ≡ packet_count max len }
{
    if len % max == 0 {
        return len / max;
    }
    len / max + 1
}

/// Puts bytes at the end as packets of `max` bytes, the last with the rest.
#[tactic(auto, using(crate::proofs::Fills::chunks_more))]
pub fn push_packets(
    alloc: Global,
    items: &mut Vec<Item>,
    bytes: &[u8],
    max: usize,
) -> Result<(), Memory>
    requires { 0 < max }
    ensures { IfOk result (λ _. items.new.items ≡ items.old.items ++ packets max bytes.now) }
{
    let mut rest = bytes;
    let count = packet_count(max, bytes.len());
    for k in 0..count {
        let cut = usize::min(max, rest.len());
        let (piece, behind) = rest.split_at(cut);
        let packet = Vec::from_slice(alloc, piece)?;
        push(items, Item::Bytes(ListOf::of(packet)))?;
        rest = behind;
    }
    Ok(())
}

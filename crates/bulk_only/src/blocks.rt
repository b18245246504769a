ghost use Rattle.std.specs.Prelude.{◌≡◌, ◌+◌, ◌*◌, ◌≤◌, ◌<◌, ◌^◌, ◌++◌, ℕ, List, length, IfOk, nat_le, vec_len};
ghost use Rattle.bulk_only.specs.Contents.{block_at, opening, overwritten};
ghost use Rattle.bulk_only.specs.Blocks.{block_size};

use std::alloc::{AllocError, Global};
use std::marker::Model;

/// The bytes of a block.
pub(crate) const BLOCK: usize = 512;

/// The blocks of a disk, which contracts see as the list of all their bytes.
#[derive(Debug, Drop)]
pub(crate) struct Blocks {
    bytes: Vec<u8>,
}

impl Model for Blocks {
    ghost Value = { List ℕ };

    ghost view = { λ b. b.bytes.items };
}

impl Blocks {
    /// This many blocks, as they are first.
    #[tactic(auto, using(crate::proofs::Packets::one_byte_more), unfolding(crate::specs::Contents::opening))]
    pub(crate) fn build(alloc: Global, blocks: u32) -> Result<Blocks, AllocError>
        ensures { IfOk result (λ b. b ≡ opening blocks) }
    {
        let all = BLOCK * blocks as usize;
        let mut bytes = Vec::with_capacity(alloc, all)?;
        for k in 0..all {
            bytes.push_reserved(((k / BLOCK + k % BLOCK) % 256) as u8);
        }
        Ok(Blocks { bytes })
    }

    /// Whether this many blocks from block `lba` on are there.
    pub(crate) fn has(&self, lba: u32, blocks: u16) -> bool
        ensures { result ≡ nat_le (block_size * (lba + blocks)) (length self.now) }
    {
        BLOCK * (lba as usize + blocks as usize) <= self.bytes.len()
    }

    /// The bytes of a block that is there.
    pub(crate) fn block(&self, lba: usize) -> &[u8]
        requires there { block_size * (lba + 1) ≤ length self.now }
        requires number { lba < 2 ^ 33 }
        ensures value { result.now ≡ block_at self.now lba }
        ensures length { length result.now ≡ block_size }
    {
        let at = BLOCK * lba;
        &self.bytes[at..at + BLOCK]
    }

    /// The bytes of `front`, and behind them those of `back`, become those from block `lba` on.
    #[tactic(auto, using(crate::proofs::Lists::overwritten_twice))]
    pub(crate) fn write(&mut self, lba: u32, front: &[u8], back: &[u8])
        requires { block_size * lba + (length front.now + length back.now) ≤ length self.old }
        ensures { self.new ≡ overwritten (block_size * lba) (front.now ++ back.now) self.old }
    {
        let at = BLOCK * lba as usize;
        overwrite(self.bytes.as_mut_slice(), at, front, back);
    }
}

/// The bytes from place `at` on become these.
fn put(bytes: &mut [u8], at: usize, part: &[u8])
    requires { at + length part.now ≤ length bytes.old }
    ensures after { bytes.new ≡ overwritten at part.now bytes.old }
    ensures len { length bytes.new ≡ length bytes.old }
{
    bytes[at..at + part.len()].copy_from_slice(part);
}

/// The bytes from place `at` on become those of `front`, and behind them those of `back`.
#[tactic(auto, using(crate::proofs::Lists::overwritten_twice))]
fn overwrite(bytes: &mut [u8], at: usize, front: &[u8], back: &[u8])
    requires { at + (length front.now + length back.now) ≤ length bytes.old }
    ensures { bytes.new ≡ overwritten at (front.now ++ back.now) bytes.old }
{
    put(bytes, at, front);
    put(bytes, at + front.len(), back);
}

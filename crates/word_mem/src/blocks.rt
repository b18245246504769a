ghost use Rattle.std.specs.Prelude.{◌≡◌};

use std::marker::Model;

/// Who may use a block of 8 words (32 bytes).
#[derive(Clone, Copy, Debug, PartialEq, Eq)]
pub enum BlockState {
    /// Nobody: `take` may hand it out.
    Free,

    /// The driver alone: it belongs to a `BlockRun`.
    Kept,

    /// The driver and the controller: it belongs to a `LentRun`.
    Lent,
}

/// A run of consecutive blocks of one page that `WordMem::take` handed out, for the driver alone.
///
/// Neither Copy nor Clone, so that each block has one owner. Dropping it leaves its blocks Kept for ever.
#[derive(Debug, Drop)]
pub struct BlockRun {
    first: u32,
    blocks: u32,
}

impl Model for BlockRun {
    ghost use Rattle.word_mem.specs.Runs.{Run, IsRun};

    ghost Value = { Run };

    ghost view = { λ r. record { first = r.first; blocks = r.blocks } };

    ghost invariant = { λ r. IsRun (record { first = r.first; blocks = r.blocks }) };
}

impl BlockRun {
    ghost use Rattle.word_mem.specs.Runs.{IsRun};

    pub(crate) fn new(first: u32, blocks: u32) -> BlockRun
        requires { IsRun (record { first = first; blocks = blocks }) }
        ensures { result ≡ record { first = first; blocks = blocks } }
    {
        BlockRun { first, blocks }
    }

    pub(crate) fn into_lent(self) -> LentRun
        ensures { result ≡ self }
    {
        LentRun {
            first: self.first,
            blocks: self.blocks,
        }
    }

    /// The number of its first block. Its first byte has 32 times this address.
    pub fn first(&self) -> u32
        ensures first { result ≡ self.now.first }
        ensures run { IsRun self.now }
    {
        self.first
    }

    /// How many blocks it has: 1 to 128.
    pub fn blocks(&self) -> u32
        ensures blocks { result ≡ self.now.blocks }
        ensures run { IsRun self.now }
    {
        self.blocks
    }
}

/// A run of blocks that is lent to the controller, which may read and write its words.
///
/// Neither Copy nor Clone, so that each block has one owner. Dropping it leaves its blocks Lent for ever.
#[derive(Debug, Drop)]
pub struct LentRun {
    first: u32,
    blocks: u32,
}

impl Model for LentRun {
    ghost use Rattle.word_mem.specs.Runs.{Run, IsRun};

    ghost Value = { Run };

    ghost view = { λ r. record { first = r.first; blocks = r.blocks } };

    ghost invariant = { λ r. IsRun (record { first = r.first; blocks = r.blocks }) };
}

impl LentRun {
    ghost use Rattle.word_mem.specs.Runs.{IsRun};

    pub(crate) fn into_kept(self) -> BlockRun
        ensures { result ≡ self }
    {
        BlockRun {
            first: self.first,
            blocks: self.blocks,
        }
    }

    /// The number of its first block. Its first byte has 32 times this address.
    pub fn first(&self) -> u32
        ensures first { result ≡ self.now.first }
        ensures run { IsRun self.now }
    {
        self.first
    }

    /// How many blocks it has: 1 to 128.
    pub fn blocks(&self) -> u32
        ensures blocks { result ≡ self.now.blocks }
        ensures run { IsRun self.now }
    {
        self.blocks
    }
}

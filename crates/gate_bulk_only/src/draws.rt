use crate::command::Command;

/// Numbers drawn one after another.
#[derive(Drop)]
pub(crate) struct Draws {
    x: u32,
}

impl Draws {
    /// The draws of a seed.
    pub(crate) fn new(seed: u32) -> Draws {
        Draws { x: seed }
    }

    /// The next number, below 65,536.
    pub(crate) fn draw(&mut self) -> u32 {
        self.x = self.x.wrapping_mul(1_664_525).wrapping_add(1_013_904_223);
        self.x >> 16
    }

    /// A number below this one; 0 for 0.
    pub(crate) fn below(&mut self, limit: u32) -> u32 {
        self.draw().checked_rem(limit).unwrap_or(0)
    }

    /// How many blocks: mostly few, at most 40.
    fn blocks(&mut self) -> u32 {
        if self.below(8) == 0 {
            self.below(40).saturating_add(1)
        } else {
            self.below(3).saturating_add(1)
        }
    }

    /// The first block: mostly one of the disk, at times far behind it.
    fn lba(&mut self, blocks: u32) -> u32 {
        if self.below(16) == 0 {
            self.draw().wrapping_mul(65_537)
        } else {
            self.below(blocks.saturating_add(1))
        }
    }

    /// The command of this number, for a disk of so many blocks.
    pub(crate) fn command(&mut self, number: u32, blocks: u32) -> Command {
        Command {
            tag: self.draw().wrapping_mul(40_503).wrapping_add(number),
            reads: self.below(2) == 0,
            lba: self.lba(blocks),
            blocks: self.blocks(),
            writer: number,
        }
    }
}

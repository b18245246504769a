use word_mem::{BlockRun, LentRun};

/// What a driver has that begins in a block.
#[derive(Debug, Drop)]
pub enum Slot {
    /// No run begins there.
    Empty,
    /// A run that the driver keeps.
    Keeps(BlockRun),
    /// A run that is lent to the controller.
    Lends(LentRun),
}

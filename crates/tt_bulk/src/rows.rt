/// One of a translator's two buffers.
#[derive(Clone, Copy, Debug, PartialEq, Eq)]
pub enum BufferIndex {
    First,
    Second,
}

/// What a buffer has.
#[derive(Clone, Copy, Debug, PartialEq, Eq)]
pub enum Stage {
    /// Nothing.
    Free,
    /// A packet whose transaction isn't answered yet.
    Pending,
    /// A result that no complete-split has asked for.
    Ready,
    /// A result that was given.
    Old,
}

/// How a buffer stands to the key of a split.
#[derive(Clone, Copy, Debug, PartialEq, Eq)]
pub enum Stand {
    /// It is the key's, and Pending.
    Pending,
    /// It is the key's, and Ready.
    Ready,
    /// It is the key's, and Old.
    Old,
    /// It is nobody's.
    Free,
    /// It is another key's, and Old.
    Spare,
    /// It is another key's, and Pending or Ready.
    Busy,
}

/// A row of the table for start-splits.
#[derive(Clone, Copy, Debug, PartialEq, Eq)]
pub enum StartRow {
    /// The start is a repeat of one that was taken: nothing changes.
    Repeated,
    /// This buffer takes the packet.
    Takes(BufferIndex),
    /// Both buffers work for other keys.
    Full,
}

/// A row of the table for complete-splits.
#[derive(Clone, Copy, Debug, PartialEq, Eq)]
pub enum CompleteRow {
    /// The key's transaction isn't answered yet.
    Waits,
    /// This buffer has the key's result.
    Gives(BufferIndex),
    /// No buffer has the key.
    Unknown,
}

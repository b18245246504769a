/// What is counted.
#[derive(Clone, Copy, Default)]
pub(crate) struct Counts {
    /// The commands that the disk obeyed.
    pub(crate) obeyed: u32,
    /// Those that lie past the disk.
    pub(crate) failed: u32,
    /// The pieces that it refused.
    pub(crate) refused: u32,
    /// The packets that it sent.
    pub(crate) sent: u32,
    /// The answers that are others than the model's.
    pub(crate) differ: u32,
}

/// One more where `counts`.
pub(crate) fn count(number: &mut u32, counts: bool) {
    if counts {
        *number = number.saturating_add(1);
    }
}

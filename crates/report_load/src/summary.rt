/// What the report of a run counts.
#[derive(Clone, Copy, Debug, PartialEq, Eq)]
pub struct Summary {
    /// Commands that were refused.
    pub refused: u64,
    /// Transfers and requests that were done.
    pub done: u64,
    /// Transfers and requests that were halted, or missed a complete-split.
    pub halted: u64,
    /// Transfers, requests and descriptors that weren't reported, of endpoints that haven't ended.
    pub pending: u128,
    /// The bytes of what was done.
    pub bytes: u128,
}

use drv_chains::{Member, Predecessor};
use drv_search::Search;

/// What is under way: a member is linked or unlinked.
#[derive(Clone, Copy, Debug, PartialEq, Eq)]
pub struct Work {
    /// The member.
    pub member: Member,
    /// Whether it is unlinked.
    pub removes: bool,
    /// How many of its stores were made.
    pub made: u32,
}

/// One store of a link word.
#[derive(Clone, Copy, Debug, PartialEq, Eq)]
pub struct Store {
    /// The block in which the structure, or the frame list, begins.
    pub block: u16,
    /// The byte address of the word.
    pub at: u32,
    /// The link word (EHCI 1.0, 3.3.1).
    pub value: u32,
}

/// Whether stores are left.
#[derive(Clone, Copy, Debug, PartialEq, Eq)]
pub enum Progress {
    /// At least one is left.
    More,
    /// None is left.
    Complete,
}

/// What is under way, with the next word to store and where the search goes on.
#[derive(Clone, Copy, Debug, PartialEq, Eq)]
pub(crate) struct Task {
    pub(crate) work: Work,
    pub(crate) value: u32,
    pub(crate) word: Predecessor,
    pub(crate) search: Search,
}

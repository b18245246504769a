use crate::placements::Placement;

/// A placement that keeps every budget, with the greatest microframe sum that it makes, in picoseconds.
#[derive(Clone, Copy, Debug)]
pub(crate) struct Candidate {
    pub(crate) placement: Placement,
    pub(crate) peak: u64,
}

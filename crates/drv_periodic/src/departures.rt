use drv_chains::Boundary;

/// What has left the chains, and what was read of the frame index since.
#[derive(Clone, Copy, Debug, PartialEq, Eq)]
pub struct Departure {
    /// Its name, which the driver gives.
    pub id: u32,
    /// What was read.
    pub boundary: Boundary,
}

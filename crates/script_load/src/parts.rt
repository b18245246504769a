/// What an endpoint of the load script is.
#[derive(Clone, Copy, Debug, PartialEq, Eq)]
pub enum Load {
    /// Bulk with packets of 512 bytes, at high speed.
    Bulk512,
    /// Bulk with packets of 64 bytes, at full speed.
    Bulk64,
    /// Interrupt with packets of 8 bytes, at full speed.
    Interrupt,
}

/// The parts of the load script that have a piece for each device or endpoint.
#[derive(Clone, Copy, Debug, PartialEq, Eq)]
pub enum LoadPart {
    /// The lines of the devices.
    Devices,
    /// The lines of the endpoints.
    Endpoints,
    /// What the IN endpoints send.
    Replies,
    /// Each endpoint is opened.
    Opens,
    /// A transfer of each endpoint.
    Transfers,
}

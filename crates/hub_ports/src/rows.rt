use hub_keys::Key;

/// What a request changes of a port (USB 2.0, table 11-17).
#[derive(Clone, Copy, Debug, PartialEq, Eq)]
pub enum PortChange {
    /// SetPortFeature(PORT_POWER).
    PowerOn,
    /// SetPortFeature(PORT_RESET).
    Reset,
    /// ClearPortFeature(PORT_ENABLE).
    Disable,
    /// ClearPortFeature(PORT_POWER).
    PowerOff,
    /// ClearPortFeature(C_PORT_CONNECTION).
    ForgetConnection,
    /// ClearPortFeature(C_PORT_ENABLE).
    ForgetEnable,
    /// ClearPortFeature(C_PORT_RESET).
    ForgetReset,
}

/// What a request of the hub class asks, by the first two bytes of its setup (USB 2.0, table 11-15).
#[derive(Clone, Copy, Debug, PartialEq, Eq)]
pub enum ClassRequest {
    GetHubStatus,
    GetPortStatus,
    SetPortFeature,
    ClearPortFeature,
    ClearTtBuffer,
    ResetTt,
}

/// A request that a hub knows (USB 2.0, 11.24.2).
#[derive(Clone, Copy, Debug, PartialEq, Eq)]
pub enum HubRequest {
    /// GetHubStatus.
    HubStatus,
    /// GetPortStatus of this port, from 1.
    PortStatus(u16),
    /// A feature of this port, from 1, is set or cleared.
    ChangePort(u16, PortChange),
    /// ClearTTBuffer of this key, in the translator of this port, from 1.
    ClearBuffer(u16, Key),
    /// ResetTT of the translator of this port, from 1.
    ResetTranslator(u16),
}

/// The answer to a request.
#[derive(Clone, Copy, Debug, PartialEq, Eq)]
pub enum HubReply {
    /// The four bytes that it reads.
    Bytes([u8; 4]),
    /// Its change was made.
    Done,
    /// The hub doesn't know it.
    Stall,
}

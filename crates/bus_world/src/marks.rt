use usb_base::EpName;

/// What an endpoint had taken as it was reset: its next epoch begins behind these bytes (USB 2.0, 9.4.5).
#[derive(Clone, Copy, Debug, PartialEq, Eq)]
pub struct Mark {
    /// The endpoint that was reset.
    pub name: EpName,
    /// How many bytes its device had taken there, in all epochs.
    pub taken: usize,
}

use usb_base::ListOf;

/// An image of a host's memory whose words begin at any page, with the registers that its lists begin at.
#[derive(Debug, Drop)]
pub struct ImageAt {
    /// The register FRINDEX, 0 to 3FFFh: a microframe in bits 2:0, a frame above (EHCI 1.0, 2.3.4).
    pub frindex: u16,
    /// The register PERIODICLISTBASE: the byte address of the frame list, a multiple of 4,096 (EHCI 1.0, 2.3.6).
    pub list_base: u32,
    /// The register ASYNCLISTADDR: the byte address of a queue head, a multiple of 32 (EHCI 1.0, 2.3.7).
    pub async_at: u32,
    /// The byte address of the first word, a multiple of 4,096.
    pub base: u32,
    /// The words from there on: a multiple of 1,024 of them, 1,024 to 262,144; the address behind the last one is below 2^32.
    pub words: ListOf<u32>,
}

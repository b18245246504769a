/// What differs between hosts: the frame list, the worst case of a bus below a hub, and the transactions of a visit.
#[derive(Clone, Copy, Debug, PartialEq, Eq)]
pub struct Rules {
    /// The elements of the frame list: 256, 512 or 1,024 (EHCI 1.0, 2.3.4).
    pub frames: u16,
    /// The worst case of bit stuffing counts where an isochronous OUT behind a hub is placed (USB 2.0, 7.1.9).
    pub stuffed: bool,
    /// The transactions of a visit in asynchronous park mode, 1 to 3, or 0 where it is off (EHCI 1.0, 4.10.3.2).
    pub park: u8,
}

use drv_chains::Boundary;

/// What the driver knows of the isochronous descriptor that begins in a block.
#[derive(Clone, Copy, Debug, PartialEq, Eq)]
pub struct DescriptorNote {
    /// The element of the frame list that leads to it, once its frame is chosen.
    pub frame: u16,
    /// Its endpoint is behind a hub's translator: it is a siTD (EHCI 1.0, 3.4), and otherwise an iTD (3.3).
    pub split: bool,
    /// The microframes of its slots, of a siTD those of its start-splits; microframe 0 in bit 0.
    pub smask: u8,
    /// The microframes of its complete-splits.
    pub cmask: u8,
    /// How many bytes of its buffer each slot has; a siTD has one slot.
    pub slot: u16,
    /// The blocks in which the runs of its buffer begin: one run, or whole pages.
    pub buffer: [u16; 6],
    /// How many runs its buffer has.
    pub runs: u8,
}

/// What left the frame list.
#[derive(Clone, Copy, Debug, PartialEq, Eq)]
pub enum Removed {
    /// The descriptor of the transfer of this number.
    Descriptor(usize),
    /// The endpoint of this number, with all that it still had there.
    Endpoint(usize),
}

/// What left the frame list, and is given back once the controller has let it go (EHCI 1.0, 2.3.4 and 4.6).
#[derive(Clone, Copy, Debug, PartialEq, Eq)]
pub struct Removal {
    pub what: Removed,
    /// What was read of the frame index since its last unlinking store.
    pub boundary: Boundary,
}

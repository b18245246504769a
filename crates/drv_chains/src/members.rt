/// An isochronous descriptor, an iTD or a siTD, in its one frame (EHCI 1.0, 3.3 and 3.4).
#[derive(Clone, Copy, Debug, PartialEq, Eq)]
pub struct Descriptor {
    /// The name under which it was linked.
    pub id: u32,
    /// Its frame.
    pub frame: u16,
}

/// A queue head of an interrupt endpoint (EHCI 1.0, 3.6), in each frame that leaves `phase` when divided by the frames of its period.
#[derive(Clone, Copy, Debug, PartialEq, Eq)]
pub struct QueueHead {
    /// The name under which it was linked.
    pub id: u32,
    /// The period in microframes, a power of two from 1 to 8,192.
    pub period: u16,
    /// The first of its frames; 0 where the period is below 16 microframes.
    pub phase: u16,
}

/// A structure that stands in the chains of frames.
#[derive(Clone, Copy, Debug, PartialEq, Eq)]
pub enum Member {
    /// It stands in one frame.
    Once(Descriptor),
    /// It stands in each frame of its period and phase.
    Each(QueueHead),
}

/// A word that has a link: an element of the frame list, or the first word of a structure (EHCI 1.0, 3.1, 3.3.1 and 3.6).
#[derive(Clone, Copy, Debug, PartialEq, Eq)]
pub enum Predecessor {
    /// The element of this frame.
    Element(u16),
    /// The link of this structure.
    After(Member),
}

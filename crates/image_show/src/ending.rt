use link_words::Bad;

/// How a list of structures ends in the shown text. An address is a byte address.
#[derive(Clone, Copy, Debug, PartialEq, Eq)]
pub enum Ending {
    /// At T=1, without a line: the chain of a frame, or a queue.
    Silent,
    /// At T=1: the ring.
    End,
    /// At a link that comes back to the ring's first structure.
    Ring,
    /// At a structure that isn't wholly within memory, or a frame list element outside.
    Outside(u32),
    /// At a structure that is already in this list.
    Loop(u32),
    /// At a structure that an earlier list has shown.
    Seen(u32),
    /// At an FSTN.
    Fstn(u32),
    /// At a structure with a reserved bit that is 1, or a reserved value.
    Bad(u32, Bad),
    /// At a structure of the ring that isn't a queue head.
    Kind(u32),
}

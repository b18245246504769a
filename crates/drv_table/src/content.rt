use bandwidth::Placement;
use usb_base::{EndCause, EpDesc, Rules};

/// How much room is made for what a driver is given, or how much of it isn't used.
#[derive(Clone, Copy, Debug, PartialEq, Eq)]
pub struct Reserve {
    /// Endpoints that are opened.
    pub endpoints: u32,
    /// Transfers and requests that are accepted.
    pub transfers: u32,
    /// Lines of the report.
    pub reports: u32,
    /// Bytes of the report.
    pub report_bytes: u32,
    /// What the frame list, the placements and the visits follow.
    pub rules: Rules,
}

/// An endpoint that was opened.
#[derive(Clone, Copy, Debug)]
pub struct Endpoint {
    /// What the host knows of it.
    pub desc: EpDesc,
    /// Its place in the frame list, of an interrupt or isochronous endpoint alone.
    pub placement: Option<Placement>,
    /// The block in which its queue head begins; 0 where it is isochronous, and has none.
    pub queue: u16,
    /// The block of the inactive qTD at the end of its queue; 0 where it has no queue.
    pub dummy: u16,
    /// The number of its first transfer that isn't harvested.
    pub next: Option<usize>,
    /// Why it ended first: a halt at its harvest, a cancel at its acceptance.
    pub ended: Option<EndCause>,
    /// A cancel of it was accepted.
    pub cancelled: bool,
    /// It is in the ring, or its open is unfinished.
    pub linked: bool,
    /// It has a place in the frame list, and isn't out of it by a cancel.
    pub chained: bool,
    /// It was cancelled, and its blocks were given back.
    pub gone: bool,
}

/// What a transfer is.
#[derive(Clone, Copy, Debug, PartialEq, Eq)]
pub enum Sort {
    /// Bytes that are asked of an IN endpoint: a short qTD ends it.
    Get,
    /// Bytes that are sent to an OUT endpoint.
    Put,
    /// A request to a control endpoint (USB 2.0, 8.5.3).
    Request,
    /// A descriptor of an isochronous endpoint (EHCI 1.0, 3.3 and 3.4): it has no qTD.
    Descriptor,
}

/// A transfer that was accepted.
#[derive(Clone, Copy, Debug)]
pub struct Transfer {
    /// The number of its endpoint.
    pub endpoint: usize,
    pub sort: Sort,
    /// The block of its first qTD, or of its descriptor.
    pub first: u16,
    /// How many qTDs it has.
    pub qtds: u16,
    /// The block of the qTD whose token is read next.
    pub place: u16,
    /// How many qTDs there are from that one on, itself included.
    pub left: u16,
    /// The most bytes that its report tells.
    pub most: u32,
    /// Its line of the report was made.
    pub reported: bool,
    /// Its blocks were given back.
    pub released: bool,
    /// Whose line of the report it belongs to.
    pub part: Part,
}

/// Whose line of the report a transfer belongs to; a tag is the number of a command of a disk, from 1.
#[derive(Clone, Copy, Debug, PartialEq, Eq)]
pub enum Part {
    /// Its own.
    Own,
    /// That of a clear: it is the request to the hub.
    Clear,
    /// That of a disk's command: it is the command block.
    Block,
    /// That of the disk's command with this tag: it is the data.
    Data(u32),
    /// That of the disk's command with this tag: it is the status block.
    Status(u32),
}

/// What the driver knows of the qTD in a block.
#[derive(Clone, Copy, Debug)]
pub struct QtdNote {
    /// The block of the qTD after it.
    pub next: u16,
    /// The blocks in which the runs of its buffer begin: one run, or whole pages.
    pub buffer: [u16; 5],
    /// How many runs its buffer has.
    pub runs: u8,
    /// How many bytes of its buffer a report tells at most: none of a SETUP's.
    pub told: u16,
    /// How many of them were moved, once its token was read with Active clear.
    pub moved: u16,
}

/// A store that a stalled control endpoint is owed.
#[derive(Clone, Copy, Debug, PartialEq, Eq)]
pub struct Mend {
    /// The block in which its queue head begins.
    pub queue: u16,
    /// The byte address of the word.
    pub at: u32,
    /// What the word becomes.
    pub value: u32,
}

/// A command that was accepted and isn't finished.
#[derive(Clone, Copy, Debug)]
pub enum Command {
    /// The queue head in this block is lent and linked behind the head of the ring.
    Open(u16),
    /// What was taken is lent, and the qTD in this block gets these words, its token last.
    Publish(u16, [u32; 8]),
    /// The endpoint of this number leaves the ring: the queue head in this block gets this link.
    Unlink(usize, u16, u32),
    /// What was taken is lent, and the queue head of a new interrupt endpoint is linked in its frames.
    Chain,
    /// So many descriptors of the endpoint of this number, from this transfer on, get their frames, are lent and are linked there.
    Iso(usize, usize, u8),
    /// The periodic endpoint of this number leaves its frames.
    Unchain(usize),
}

/// Whose turn it is where no command is unfinished.
#[derive(Clone, Copy, Debug, PartialEq, Eq)]
pub enum Turn {
    Leaving,
    Harvest,
}

/// The doorbell of the asynchronous ring (EHCI 1.0, 4.8.2).
#[derive(Clone, Copy, Debug, PartialEq, Eq)]
pub enum Bell {
    /// No doorbell is pending.
    Quiet,
    /// The doorbell was set, and Async Advance wasn't read since.
    Rung,
    /// Async Advance was read, and isn't cleared yet.
    Heard,
}

/// Where the alternate pointer of a qTD leads (EHCI 1.0, 3.5.2).
#[derive(Clone, Copy, Debug, PartialEq, Eq)]
pub enum Alternate {
    Nowhere,
    /// To the new dummy: a short qTD ends its transfer.
    Dummy,
    /// To the next qTD: a short data stage is followed by its status.
    Next,
}

/// One qTD of a transfer that is to be published.
#[derive(Clone, Copy, Debug)]
pub struct Stage {
    /// Its PID code: 0 is OUT, 1 IN, 2 SETUP (EHCI 1.0, 3.5.3).
    pub pid: u8,
    /// The bytes of its buffer, at most 20,480.
    pub long: u16,
    /// How many of them a report tells at most.
    pub told: u16,
    /// Its first data PID is DATA1.
    pub toggle: bool,
    pub alternate: Alternate,
}

/// What is the same of each descriptor of a command.
#[derive(Clone, Copy, Debug, PartialEq, Eq)]
pub struct Slots {
    /// The endpoint is behind a hub's translator: its descriptors are siTDs (EHCI 1.0, 3.4), and otherwise iTDs (3.3).
    pub split: bool,
    /// The microframes of its slots, of a siTD those of its start-splits; microframe 0 in bit 0.
    pub smask: u8,
    /// The microframes of its complete-splits.
    pub cmask: u8,
    /// The bytes of each slot; a siTD has one slot.
    pub slot: u16,
}

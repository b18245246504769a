use crate::wire::Answer;
use crate::wire::Answer::{Ack, Data, Nak, Nyet, Silent, Stall};

/// A queue head with one qTD, and what the wire answers.
#[derive(Clone, Copy)]
pub(crate) struct Case {
    pub(crate) name: &'static str,
    /// Words 1 and 2 of the queue head (EHCI 1.0, 3.6.2).
    pub(crate) characteristics: u32,
    pub(crate) capabilities: u32,
    /// The token of its qTD, and the address of its buffer.
    pub(crate) token: u32,
    pub(crate) buffer: u32,
    pub(crate) answers: &'static [Answer],
}

/// Device 3, endpoint 1, high speed, packets of 512 bytes, RL 4.
const HIGH: u32 = 0x4200_2103;

/// Device 3, endpoint 0, high speed, packets of 64 bytes, DTC 1, RL 4.
const CONTROL: u32 = 0x4040_6003;

/// Device 3, endpoint 1, full speed, packets of 64 bytes, RL 0.
const FULL: u32 = 0x0040_0103;

/// Port 2 of hub 9.
const BEHIND: u32 = 0x4109_0000;

const DIRECT: u32 = 0x4000_0000;

/// The rows.
pub(crate) fn all() -> [Case; 9] {
    [
        // 1,024 bytes OUT: NYET to the first packet, then PINGs until there is room.
        Case {
            name: "nyet then ping until ack",
            characteristics: HIGH,
            capabilities: DIRECT,
            token: 0x0400_8c80,
            buffer: 0x2000,
            answers: &[Nyet, Nak, Nak, Ack, Ack],
        },
        // An OUT is refused: the next is pinged, and the same packet goes again.
        Case {
            name: "nak to an out",
            characteristics: HIGH,
            capabilities: DIRECT,
            token: 0x0200_8c80,
            buffer: 0x2000,
            answers: &[Nak, Ack, Ack],
        },
        // A SETUP of 8 bytes; its toggle is the qTD's.
        Case {
            name: "setup",
            characteristics: CONTROL,
            capabilities: DIRECT,
            token: 0x0008_8e80,
            buffer: 0x2000,
            answers: &[Silent, Ack],
        },
        // The status of a control read: an OUT of no bytes with DATA1.
        Case {
            name: "status out",
            characteristics: CONTROL,
            capabilities: DIRECT,
            token: 0x8000_8c80,
            buffer: 0,
            answers: &[Ack],
        },
        Case {
            name: "split in",
            characteristics: FULL,
            capabilities: BEHIND,
            token: 0x00c0_0d80,
            buffer: 0x2000,
            answers: &[
                Ack,
                Nyet,
                Data(64),
                Nak,
                Ack,
                Silent,
                Data(64),
                Ack,
                Nak,
                Ack,
                Stall,
            ],
        },
        Case {
            name: "split out",
            characteristics: FULL,
            capabilities: BEHIND,
            token: 0x0080_8c80,
            buffer: 0x2000,
            answers: &[Ack, Nyet, Ack, Silent, Ack, Nak, Ack, Ack],
        },
        // Three lost start-splits are the end.
        Case {
            name: "split out in silence",
            characteristics: FULL,
            capabilities: BEHIND,
            token: 0x0040_0c80,
            buffer: 0x2000,
            answers: &[],
        },
        // The buffer begins 3 bytes before the end of the fifth page: no byte is read, and nothing is asked.
        Case {
            name: "out past the last page",
            characteristics: HIGH,
            capabilities: DIRECT,
            token: 0x0200_cc80,
            buffer: 0x2ffd,
            answers: &[Ack],
        },
        // The buffer lies past memory: nothing is asked.
        Case {
            name: "out of memory",
            characteristics: HIGH,
            capabilities: DIRECT,
            token: 0x0200_8c80,
            buffer: 0x10_0000,
            answers: &[Ack],
        },
    ]
}

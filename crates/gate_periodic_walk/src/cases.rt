use crate::wire::Answer;
use crate::wire::Answer::{Ack, Data, Err, Nyet, Silent};
use usb_base::Pid::{Data0, Data1, Data2, Mdata};

/// What the chain begins with.
#[derive(Clone, Copy)]
pub(crate) enum Kind {
    Queue,
    Itd,
    Sitd,
}

/// A structure alone in its chain, and what the wire answers.
#[derive(Clone, Copy)]
pub(crate) struct Case {
    pub(crate) name: &'static str,
    pub(crate) kind: Kind,
    /// The words of the structure, and the token of a queue head's qTD.
    pub(crate) words: &'static [u32],
    pub(crate) token: u32,
    /// The microframes of FRINDEX in which it is visited.
    pub(crate) microframes: &'static [u16],
    pub(crate) answers: &'static [Answer],
    /// The words that are told at the end.
    pub(crate) shown: &'static [u32],
}

/// Device 3, endpoint 1, full speed, packets of 64 bytes; port 2 of hub 9; a start-split in microframe 0, complete-splits in 2, 3 and 4.
const BELOW: &[u32] = &[1, 0x0040_0103, 0x4109_1c01, 0, 0x1080, 1, 0, 0, 0, 0, 0, 0];

/// Device 3, endpoint 1, high speed, packets of 64 bytes, up to three in microframe 0.
const HIGH: &[u32] = &[1, 0x0040_2103, 0xc000_0001, 0, 0x1080, 1, 0, 0, 0, 0, 0, 0];

/// Device 5, endpoint 3, packets of up to 1,024 bytes, three in microframe 2: 3,072 bytes IN from 2000h on, with IOC.
const ISO_IN: &[u32] = &[
    1,
    0,
    0,
    0x8c00_8000,
    0,
    0,
    0,
    0,
    0,
    0x0000_2305,
    0x0000_3c00,
    3,
    0,
    0,
    0,
    0,
];

/// The same OUT: 2,049 bytes from 2C00h on, over the end of the page.
const ISO_OUT: &[u32] = &[
    1,
    0,
    0,
    0x8801_8c00,
    0,
    0,
    0,
    0,
    0,
    0x0000_2305,
    0x0000_3400,
    3,
    0,
    0,
    0,
    0,
];

/// Device 5, endpoint 3 at port 2 of hub 9: 200 bytes IN, a start-split in microframe 0, complete-splits in 2, 3 and 4.
const SPLIT_IN: &[u32] = &[
    1,
    0x8209_0305,
    0x0000_1c01,
    0x80c8_0080,
    0x0000_2000,
    0x0000_3000,
    1,
];

/// The same OUT: 400 bytes in three parts, in the microframes 1, 2 and 3, with the page's end in the second.
const SPLIT_OUT: &[u32] = &[
    1,
    0x0209_0305,
    0x0000_000e,
    0x8190_0080,
    0x0000_2f00,
    0x0000_300b,
    1,
];

const OVERLAY: &[u32] = &[0x1018, 0x101c, 0x1020, 0x1024, 0x1088, 0x2000];

/// A queue head of BELOW with a qTD of 64 bytes IN.
fn split(name: &'static str, microframes: &'static [u16], answers: &'static [Answer]) -> Case {
    Case {
        name,
        kind: Kind::Queue,
        words: BELOW,
        token: 0x0040_8d80,
        microframes,
        answers,
        shown: OVERLAY,
    }
}

fn iso(name: &'static str, words: &'static [u32], answers: &'static [Answer]) -> Case {
    Case {
        name,
        kind: Kind::Itd,
        words,
        token: 0,
        microframes: &[17, 18],
        answers,
        shown: &[0x1008, 0x100c, 0x1010, 0x2000, 0x2400, 0x2800],
    }
}

fn parts(
    name: &'static str,
    words: &'static [u32],
    microframes: &'static [u16],
    answers: &'static [Answer],
) -> Case {
    Case {
        name,
        kind: Kind::Sitd,
        words,
        token: 0,
        microframes,
        answers,
        shown: &[0x100c, 0x1010, 0x1014, 0x2000, 0x20bc],
    }
}

/// The rows.
pub(crate) fn all() -> [Case; 15] {
    [
        // The start-split in microframe 8, NYET in 10, the data in 11.
        split(
            "interrupt below a hub",
            &[8, 9, 10, 11, 12],
            &[Silent, Nyet, Data(Data0, 64)],
        ),
        split("no complete-split in its microframe", &[8, 11], &[Silent]),
        split("the next frame", &[8, 18], &[Silent]),
        // Frame 33 has the tag of frame 1.
        split("a later frame with an equal tag", &[8, 264], &[Silent]),
        // Each silent complete-split is written back, then made again; the third error halts.
        split("silent complete-splits", &[8, 10], &[Ack]),
        split(
            "silent, then data",
            &[8, 10],
            &[Ack, Silent, Data(Data0, 64)],
        ),
        // NYET to each: the last is an error, and the next frame starts again.
        split(
            "no data in a frame",
            &[8, 10, 11, 12, 16],
            &[Ack, Nyet, Nyet, Nyet, Ack],
        ),
        Case {
            name: "three packets of a microframe",
            kind: Kind::Queue,
            words: HIGH,
            token: 0x0100_8d80,
            microframes: &[8, 9],
            answers: &[Data(Data0, 64), Data(Data1, 64), Data(Data0, 64)],
            shown: OVERLAY,
        },
        iso(
            "iso in of three packets",
            ISO_IN,
            &[Data(Data2, 1024), Data(Data1, 1024), Data(Data0, 5)],
        ),
        iso(
            "iso in out of order",
            ISO_IN,
            &[Data(Data2, 1024), Data(Data0, 5)],
        ),
        iso("iso out of 2,049 bytes", ISO_OUT, &[Silent, Silent, Silent]),
        parts(
            "split iso in of two parts",
            SPLIT_IN,
            &[8, 10, 11, 12],
            &[Silent, Data(Mdata, 188), Data(Data0, 12)],
        ),
        // Microframe 0 of the next frame is in the S-mask, but it waits for its complete-splits: no start-split goes out.
        parts(
            "split iso in, not ended in its frame",
            SPLIT_IN,
            &[8, 16],
            &[Silent],
        ),
        parts(
            "split iso in, error",
            SPLIT_IN,
            &[8, 10, 11],
            &[Silent, Err],
        ),
        parts(
            "split iso out of three parts",
            SPLIT_OUT,
            &[8, 9, 10, 11, 12],
            &[],
        ),
    ]
}

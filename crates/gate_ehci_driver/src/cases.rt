use crate::cases::Act::{
    Answer, Cancel, Events, Get, Image, Open, Put, Refuse, Registers, Request, Room, Tell, Write,
    Writes,
};
use crate::pipes::Pipe;
use usb_base::{EndCause, OfferError};

/// What is done with a driver.
#[derive(Clone, Copy)]
pub(crate) enum Act {
    /// The endpoint is to be opened.
    Open(Pipe),
    /// So many bytes are asked for, in qTDs of so many.
    Get(Pipe, u32, u32),
    /// So many bytes are sent, in qTDs of so many.
    Put(Pipe, u32, u32),
    /// A request with these setup bytes, and with so many bytes to be sent.
    Request(Pipe, [u8; 8], u32),
    /// So many descriptors, with slots of so many bytes, which count up from the last number.
    Iso(Pipe, u8, u16, u8),
    /// The endpoint is to be cancelled.
    Cancel(Pipe),
    /// The halt of the endpoint is to be cleared.
    Clear(Pipe),
    /// So many events of the driver.
    Events(u32),
    /// So many events of the driver, of which the last is told alone.
    Run(u32),
    /// So many microframes begin.
    Microframes(u32),
    /// The controller writes a word at a byte address.
    Write(u32, u32),
    /// The controller writes the same word at so many places, one every so many bytes.
    Writes {
        at: u32,
        every: u32,
        count: u32,
        word: u32,
    },
    /// The controller answers the doorbell.
    Answer,
    /// All words from a byte address on are told that aren't 0.
    Image(u32),
    /// The same of so many words.
    Words(u32, u32),
    /// All registers are told.
    Registers,
    /// What of the room isn't used.
    Room,
    /// What the driver tells of an endpoint.
    Tell(Pipe),
    /// The report is to tell a refusal.
    Refuse(Pipe, OfferError),
}

/// A memory of so many words, and what is done.
#[derive(Clone, Copy)]
pub(crate) struct Case {
    pub(crate) name: &'static str,
    pub(crate) words: u32,
    pub(crate) acts: &'static [Act],
}

/// A row with the smallest memory.
pub(crate) fn small(name: &'static str, acts: &'static [Act]) -> Case {
    Case {
        name,
        words: 2048,
        acts,
    }
}

/// The opening, opens, refusals and whole transfers.
pub(crate) fn all() -> [Case; 11] {
    [
        small("the opening", &[Image(0), Registers, Room]),
        small(
            "an open",
            &[
                Open(Pipe::In),
                Image(0x1040),
                Events(3),
                Image(0x1000),
                Tell(Pipe::In),
                Tell(Pipe::Out),
                Room,
            ],
        ),
        small(
            "endpoints behind a hub",
            &[
                Open(Pipe::Classic),
                Events(2),
                Open(Pipe::ClassicControl),
                Events(2),
                Open(Pipe::Control),
                Events(2),
                Image(0x1000),
            ],
        ),
        small(
            "refusals in their order",
            &[
                Get(Pipe::In, 8, 512),
                Cancel(Pipe::In),
                Open(Pipe::In),
                Open(Pipe::In),
                Get(Pipe::In, 20_481, 512),
                Cancel(Pipe::Out),
                Events(2),
                Open(Pipe::In),
                Put(Pipe::In, 8, 512),
                Request(Pipe::In, [0x80, 6, 0, 1, 0, 0, 18, 0], 0),
                Get(Pipe::In, 20_481, 20_480),
                Get(Pipe::In, 20_480, 20_480),
                Open(Pipe::Control),
                Events(2),
                Get(Pipe::Control, 8, 64),
                Put(Pipe::Control, 8, 64),
                Request(Pipe::Control, [0x80, 6, 0, 1, 0, 0, 1, 0x50], 0),
                Cancel(Pipe::In),
                Cancel(Pipe::In),
                Events(1),
                Cancel(Pipe::In),
                Get(Pipe::In, 20_481, 512),
                Open(Pipe::In),
                Put(Pipe::In, 20_481, 512),
                Refuse(Pipe::In, OfferError::Closed(EndCause::Cancel)),
                Tell(Pipe::In),
                Room,
            ],
        ),
        small(
            "no blocks at the first run",
            &[
                Open(Pipe::In),
                Events(2),
                Get(Pipe::In, 3904, 20_480),
                Events(9),
                Get(Pipe::In, 0, 20_480),
                Open(Pipe::Out),
            ],
        ),
        small(
            "no blocks at a middle run",
            &[
                Open(Pipe::In),
                Events(2),
                Get(Pipe::In, 4608, 512),
                Image(0x1000),
                Room,
                Get(Pipe::In, 512, 512),
            ],
        ),
        small(
            "no blocks at the last run",
            &[
                Open(Pipe::In),
                Events(2),
                Get(Pipe::In, 4096, 512),
                Get(Pipe::In, 4096, 20_480),
                Get(Pipe::In, 3840, 20_480),
                Events(9),
                Open(Pipe::Out),
            ],
        ),
        Case {
            name: "no blocks in one page",
            words: 3072,
            acts: &[
                Open(Pipe::In),
                Events(2),
                Get(Pipe::In, 4096, 20_480),
                Events(9),
                Get(Pipe::In, 4096, 20_480),
            ],
        },
        Case {
            name: "a get of 20,480 bytes by 512",
            words: 8192,
            acts: &[
                Open(Pipe::In),
                Events(2),
                Get(Pipe::In, 20_480, 512),
                Image(0x1080),
                Events(9),
                // The first and the last byte of the whole, and those on both sides of a page's end.
                Write(0x15a0, 0x0000_0001),
                Write(0x1f9c, 0x0200_0000),
                Write(0x2000, 0x0000_0003),
                Write(0x65fc, 0x0400_0000),
                Writes {
                    at: 0x1088,
                    every: 64,
                    count: 20,
                    word: 0x8000_0d00,
                },
                Writes {
                    at: 0x10a8,
                    every: 64,
                    count: 19,
                    word: 0x0000_0d00,
                },
                Write(0x1568, 0x0000_8d00),
                Events(42),
                Image(0x1040),
                Room,
            ],
        },
        // The third page is another's, so the five don't follow one another.
        Case {
            name: "a put over five pages",
            words: 8192,
            acts: &[
                Open(Pipe::Out),
                Events(2),
                Open(Pipe::Other),
                Events(2),
                Put(Pipe::Out, 4096, 20_480),
                Events(9),
                Put(Pipe::Other, 4096, 20_480),
                Events(9),
                Write(0x1088, 0x0000_9c00),
                Events(3),
                Put(Pipe::Out, 20_480, 20_480),
                Image(0x2000),
                Events(9),
                Write(0x1108, 0x0000_cc00),
                Events(3),
                Room,
            ],
        },
        small(
            "a put of no bytes",
            &[
                Open(Pipe::Out),
                Events(2),
                Put(Pipe::Out, 0, 512),
                Events(9),
                Write(0x1088, 0x8000_8c00),
                Events(3),
            ],
        ),
    ]
}

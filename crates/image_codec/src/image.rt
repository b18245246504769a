use thiserror::Error;
use usb_base::{ListOf, Memory};

/// An image of a host's memory, with the registers that its lists begin at.
#[derive(Debug, Drop)]
pub struct Image {
    /// The register FRINDEX, 0 to 3FFFh: a microframe in bits 2:0, a frame above (EHCI 1.0, 2.3.4).
    pub frindex: u16,
    /// The register PERIODICLISTBASE: the byte address of the frame list, a multiple of 4,096 (EHCI 1.0, 2.3.6).
    pub list_base: u32,
    /// The register ASYNCLISTADDR: the byte address of a queue head, a multiple of 32 (EHCI 1.0, 2.3.7).
    pub async_at: u32,
    /// The words of memory from address 0 on: a multiple of 1,024 of them, 1,024 to 262,144.
    pub words: ListOf<u32>,
}

/// Why bytes are no image.
#[derive(Clone, Copy, Debug, PartialEq, Eq)]
pub enum ImageWhy {
    /// The first four bytes aren't `EHCI`.
    Magic,
    /// The version isn't 1.
    Version,
    /// A field of the header, or the number of words, breaks its range or its alignment.
    Alignment,
    /// There are fewer bytes than a header has, or not as many as the header says.
    Length,
}

/// The first refusal of bytes that are no image.
#[derive(Clone, Copy, Debug, PartialEq, Eq)]
pub struct Refusal {
    /// The byte offset that the refusal names, at most 1,048,600.
    pub offset: u32,
    /// Why the bytes are no image.
    pub why: ImageWhy,
}

/// Why an image can't be read.
#[derive(Debug, Drop, Error)]
pub enum ImageError {
    /// The bytes are no image: the first refusal, and the byte offset that it names.
    #[error("offset {offset}: {why:?}")]
    Refused { offset: u32, why: ImageWhy },
    /// Want of memory for the words.
    #[error("out of memory")]
    Memory(Memory),
}

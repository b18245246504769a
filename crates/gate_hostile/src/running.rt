use crate::ends::{SlowSink, SlowSource};
use app_ends::Status;
use app_machine::ehci_machine;
use std::alloc::{AllocError, Global};
use usb_base::{MemSink, MemSource};

/// The most bytes that an output of these inputs has.
const ROOM: u32 = 1 << 19;

/// How a run ended, what it wrote, and how often it read and wrote.
#[derive(Drop)]
pub struct Ending {
    pub status: Status,
    pub written: Vec<u8>,
    pub reads: u32,
    pub writes: u32,
}

/// What fails, and how many bytes a call moves at most.
#[derive(Clone, Copy)]
pub struct Ends<'f> {
    pub most: usize,
    /// The reads that fail, counted from 0.
    pub reads: &'f [u32],
    /// The writes that fail, counted from 0.
    pub writes: &'f [u32],
}

/// Nothing fails, and each call moves up to so many bytes.
pub fn moving(most: usize) -> Ends<'static> {
    Ends {
        most,
        reads: &[],
        writes: &[],
    }
}

/// The program on one word.
///
/// # Errors
///
/// `AllocError` where there is no memory for the ends.
pub fn run(alloc: Global, word: &str, input: &[u8], ends: Ends<'_>) -> Result<Ending, AllocError> {
    let mut words = Vec::new(alloc);
    words.push(String::from_str(alloc, word)?)?;
    let mut source = SlowSource {
        source: MemSource::build(alloc, input, ends.reads).map_err(|_| AllocError)?,
        most: ends.most,
        calls: 0,
    };
    let mut sink = SlowSink {
        sink: MemSink::build(alloc, ROOM, ends.writes).map_err(|_| AllocError)?,
        most: ends.most,
        calls: 0,
    };
    let status = ehci_machine(alloc, words.as_slice(), &mut source, &mut sink);
    Ok(Ending {
        status,
        written: Vec::from_slice(alloc, sink.sink.written())?,
        reads: source.calls,
        writes: sink.calls,
    })
}

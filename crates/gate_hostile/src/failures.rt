use crate::running::{Ending, Ends, moving, run};
use app_ends::Status;
use std::alloc::{AllocError, Global};

/// All bytes that there are in one call.
const ALL: usize = 1 << 20;

/// Whether a run whose read failed says so, and wrote nothing.
fn is_read_fault(ending: &Ending) -> bool {
    ending.status == Status::ReadFault && ending.written.is_empty()
}

/// Whether a run whose write failed says so, and wrote a front part of the output that isn't all of it.
fn is_write_fault(ending: &Ending, output: &[u8]) -> bool {
    ending.status == Status::WriteFault
        && ending.written.len() < output.len()
        && output.starts_with(ending.written.as_slice())
}

/// How many of the calls that a run makes are faults as they must be, where they fail in turn.
fn faults(
    alloc: Global,
    word: &str,
    input: &[u8],
    output: &[u8],
    whole: &Ending,
    most: usize,
) -> Result<u32, AllocError> {
    let mut alike = 0u32;
    for read in 0..whole.reads {
        let ends = Ends {
            most,
            reads: &[read],
            writes: &[],
        };
        alike = alike.saturating_add(is_read_fault(&run(alloc, word, input, ends)?) as u32);
    }
    for write in 0..whole.writes {
        let ends = Ends {
            most,
            reads: &[],
            writes: &[write],
        };
        let ending = run(alloc, word, input, ends)?;
        alike = alike.saturating_add(is_write_fault(&ending, output) as u32);
    }
    Ok(alike)
}

/// Whether the whole output is written with calls of so many bytes, and each of the calls fails in turn as it must.
fn is_sound(
    alloc: Global,
    word: &str,
    input: &[u8],
    output: &[u8],
    most: usize,
) -> Result<bool, AllocError> {
    let whole = run(alloc, word, input, moving(most))?;
    let calls = whole.reads.saturating_add(whole.writes);
    Ok(
        whole.written.as_slice() == output
            && calls > 2
            && faults(alloc, word, input, output, &whole, most)? == calls,
    )
}

/// What the program does on a word with calls of any size, with calls of at most so many bytes, and with calls of one.
pub fn of(
    alloc: Global,
    word: &str,
    input: &[u8],
    output: &[u8],
    most: usize,
) -> Result<String, AllocError> {
    if !is_sound(alloc, word, input, output, ALL)? {
        return format!(in alloc; "wrong");
    }
    if !is_sound(alloc, word, input, output, most)? {
        return format!(in alloc; "wrong with calls of {most}");
    }
    let slow = run(alloc, word, input, moving(1))?;
    if slow.written.as_slice() != output {
        return format!(in alloc; "wrong with calls of 1");
    }
    format!(in alloc;
        "as it must be, and where each read and each write fails, also with calls of {most}"
    )
}

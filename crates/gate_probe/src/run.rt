use crate::cases::Case;
use crate::images::{RING, bytes_of, words_of};
use app_ends::Status;
use app_probe::Silence;
use app_probe_cli::ehci_probe;
use hc_core::{Controller, HcStep};
use op_registers::Registers;
use std::alloc::{AllocError, Global};
use usb_base::{MemSink, MemSource};
use word_mem::WordMem;

/// How many events have their letters shown.
const SHOWN: u32 = 48;

/// How many events the program is asked for.
const PROBED: &str = "100";

fn letter(step: HcStep) -> &'static str {
    match step {
        HcStep::Begin => "B",
        HcStep::Fetch => "F",
        HcStep::Advance => "A",
        HcStep::Transact => "T",
        HcStep::WriteBack => "W",
        HcStep::Skip => "S",
        HcStep::End => "E",
        HcStep::Idle => "I",
    }
}

/// Registers over the lists of a case, whose controller runs.
fn opened(case: &Case) -> Registers {
    let mut regs = Registers::reset();
    regs.driver_write(0x14, case.list_base);
    regs.driver_write(0x18, RING);
    regs.driver_write(0x00, 0x0008_0031);
    regs
}

/// The letters of the first events, up to the first Idle.
fn letters(alloc: Global, case: &Case, words: &[u32]) -> Result<String, AllocError> {
    if words.len() != 2048 {
        return format!(in alloc; "other than two pages");
    }
    let Ok(mut mem) = WordMem::from_words(alloc, words) else {
        return Err(AllocError);
    };
    let mut regs = opened(case);
    let mut wire = Silence;
    let mut controller = Controller::new();
    let mut text = String::new(alloc);
    for _event in 0..SHOWN {
        let step = controller.step(&mut regs, &mut mem, &mut wire);
        if step == HcStep::Idle {
            return Ok(text);
        }
        text.push_str(letter(step))?;
    }
    Ok(text)
}

/// What the program writes of an image.
fn told(alloc: Global, bytes: &[u8]) -> Result<String, AllocError> {
    let mut words = Vec::new(alloc);
    words.push(String::from_str(alloc, PROBED)?)?;
    let mut source = MemSource::build(alloc, bytes, &[]).map_err(|_| AllocError)?;
    let mut sink = MemSink::build(alloc, 4096, &[]).map_err(|_| AllocError)?;
    let status = ehci_probe(alloc, words.as_slice(), &mut source, &mut sink);
    match str::from_utf8(sink.written()) {
        Ok(line) if status == Status::Ok => String::from_str(alloc, line),
        _ => format!(in alloc; "status {}\n", status.code()),
    }
}

/// A row: the name of its image, the letters of the first events, and the line that the program writes of a hundred.
pub fn describe(alloc: Global, case: &Case) -> Result<String, AllocError> {
    let words = words_of(alloc, case)?;
    let bytes = bytes_of(alloc, case, &words)?;
    let shown = letters(alloc, case, &words)?;
    format!(in alloc; "{}: {shown}, {}", case.name, told(alloc, &bytes)?)
}

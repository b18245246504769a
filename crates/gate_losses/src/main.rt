//! Runs a transfer of three packets under each set of at most five lost or damaged packets among its first ten, and
//! compares each report with a plain model that counts packets and knows no toggles.
#![tactic(auto)]

mod model;

use app_ends::Status;
use app_machine::ehci_machine;
use model::{Ending, model_of};
use std::alloc::{AllocError, Global};
use std::io;
use usb_base::{MemSink, MemSource};

const HEAD: &[u8] = b"ehci 1\ndev 3 high\nep 3 1 in bulk 512\nreply 3 1 in fill 1030 0\n";

const TAIL: &[u8] = b"open 3 1 in\norder m 20\nget 3 1 in 1030\norder m 20\n";

const DIGITS: &[u8; 16] = b"0123456789abcdef";

/// The script in which packet k is lost or damaged where bit k of `lost` is set.
fn script(alloc: Global, lost: u32) -> Result<Vec<u8>, AllocError> {
    let mut text = Vec::from_slice(alloc, HEAD)?;
    for (k, digit) in b"0123456789".iter().enumerate() {
        if lost >> k as u32 & 1 == 1 {
            text.extend_from_slice(b"fate 3 1 in high ")?;
            text.push(*digit)?;
            let fate: &[u8] = if k % 2 == 0 {
                b" lost\n"
            } else {
                b" damaged\n"
            };
            text.extend_from_slice(fate)?;
        }
    }
    text.extend_from_slice(TAIL)?;
    Ok(text)
}

/// The report that the model says.
fn report(alloc: Global, ending: Ending) -> Result<Vec<u8>, AllocError> {
    let (front, bytes): (&[u8], u32) = match ending {
        Ending::Done => (b"done 3.1.in 1030 ", 1030),
        Ending::Halted(0) => (b"halt 3.1.in error 0 -", 0),
        Ending::Halted(1) => (b"halt 3.1.in error 512 ", 512),
        Ending::Halted(_) => (b"halt 3.1.in error 1024 ", 1024),
    };
    let mut text = Vec::from_slice(alloc, front)?;
    for i in 0..bytes {
        text.push(DIGITS[(i / 16 % 16) as usize])?;
        text.push(DIGITS[(i % 16) as usize])?;
    }
    text.push(b'\n')?;
    Ok(text)
}

/// Whether the program's report is the model's.
fn agrees(alloc: Global, words: &[String], lost: u32) -> Result<bool, AllocError> {
    let text = script(alloc, lost)?;
    let wanted = report(alloc, model_of(lost))?;
    let mut source = MemSource::build(alloc, text.as_slice(), &[]).map_err(|_| AllocError)?;
    let mut sink = MemSink::build(alloc, 4096, &[]).map_err(|_| AllocError)?;
    let status = ehci_machine(alloc, words, &mut source, &mut sink);
    Ok(status == Status::Ok && sink.written() == wanted.as_slice())
}

fn main(rt: HostRuntime) -> io::Result<()> {
    let mut words = Vec::new(rt.alloc());
    words.push(String::from_str(rt.alloc(), "run")?)?;
    let mut sets = 0u32;
    let mut alike = 0u32;
    for lost in 0..1024u32 {
        if lost.count_ones() <= 5 {
            sets = sets.saturating_add(1);
            if agrees(rt.alloc(), words.as_slice(), lost)? {
                alike = alike.saturating_add(1);
            }
        }
    }
    println!(rt; "{sets} sets of lost packets, {alike} reports as the model says")
}

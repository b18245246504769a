//! Runs the program on each worked case of `data/cases` and says whether it ends and writes as the case says.
//!
//! A line of `data/cases` has a name, the exit status and the words. The input stands in `NAME.in` and what must be written in
//! `NAME.out`; both were worked out from the standards by hand, and not by this program. The cases `example-..` are the scripts of
//! `examples/`, whose heads say what must and must not happen; so were their reports worked out.
#![tactic(auto)]

use app_ends::Status;
use app_machine::ehci_machine;
use std::alloc::Global;
use std::rt::Files;
use std::{fs, io};
use usb_base::{MemSink, MemSource};

/// The most bytes that a case writes.
const ROOM: u32 = 1 << 20;

/// What the program wrote on an input, and how it ended.
#[derive(Drop)]
struct Ending {
    status: Status,
    written: Vec<u8>,
}

/// Runs the program.
fn ending_of(alloc: Global, words: &[String], input: &[u8]) -> io::Result<Ending> {
    let mut source = MemSource::build(alloc, input, &[]).map_err(|_| io::ErrorKind::OutOfMemory)?;
    let mut sink = MemSink::build(alloc, ROOM, &[]).map_err(|_| io::ErrorKind::OutOfMemory)?;
    let status = ehci_machine(alloc, words, &mut source, &mut sink);
    let written = Vec::from_slice(alloc, sink.written())?;
    Ok(Ending { status, written })
}

/// The words of a case, which stand behind its name and its status.
fn words_of(alloc: Global, line: &str) -> io::Result<Vec<String>> {
    let mut words = Vec::new(alloc);
    for word in line.split(' ').skip(2) {
        words.push(String::from_str(alloc, word)?)?;
    }
    Ok(words)
}

fn main(rt: HostRuntime) -> io::Result<()> {
    let list = fs::read_to_string(&rt, "cases")?;
    let mut cases = 0u32;
    let mut alike = 0u32;
    for line in list.lines() {
        let mut parts = line.split(' ');
        let name = parts.next().unwrap_or("");
        let status = parts.next().unwrap_or("");
        let words = words_of(rt.alloc(), line)?;
        let input = fs::read(&rt, format!(in rt.alloc(); "{name}.in")?)?;
        let output = fs::read(&rt, format!(in rt.alloc(); "{name}.out")?)?;
        let ending = ending_of(rt.alloc(), words.as_slice(), input.as_slice())?;
        let code = format!(in rt.alloc(); "{}", ending.status.code())?;
        cases = cases.saturating_add(1);
        if code.as_str() == status && ending.written.as_slice() == output.as_slice() {
            alike = alike.saturating_add(1);
            println!(rt; "{name}: as it must be")?;
        } else {
            println!(rt; "{name}: status {code}, {} bytes", ending.written.len())?;
        }
    }
    println!(rt; "{cases} cases, {alike} as they must be")
}

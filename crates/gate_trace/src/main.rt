//! Traces each worked script of `data/cases` and says whether what is written is as the case says.
//!
//! A line of `data/cases` has a name and the words. The script stands in `NAME.in` and what must be written in `NAME.out`: lines or a
//! capture, which a script computed from the tables of the standards. One capture was corrected after this program's trace was seen: a
//! complete-split that is made again at once (EHCI 1.0, 4.12.2.4). Of the clear the lines between its command and the next, but for one
//! value, were worked out before this program's trace was seen, the others after it. So the rows agree with those scripts, and are no
//! independent check of each line.
#![tactic(auto)]

use app_ends::Status;
use app_trace_cli::ehci_trace;
use std::alloc::Global;
use std::rt::Files;
use std::{fs, io};
use usb_base::{MemSink, MemSource};

/// The most bytes that a case writes.
const ROOM: u32 = 1 << 16;

/// Whether the program writes this for a script.
fn writes(
    rt: &impl Eprint,
    alloc: Global,
    words: &[String],
    script: &[u8],
    output: &[u8],
) -> io::Result<bool> {
    let mut source = MemSource::build(alloc, script, &[]).map_err(|_| io::ErrorKind::OutOfMemory)?;
    let mut sink = MemSink::build(alloc, ROOM, &[]).map_err(|_| io::ErrorKind::OutOfMemory)?;
    let status = ehci_trace(rt, alloc, words, &mut source, &mut sink);
    Ok(status == Status::Ok && sink.written() == output)
}

/// The words of a case, which stand behind its name.
fn words_of(alloc: Global, line: &str) -> io::Result<Vec<String>> {
    let mut words = Vec::new(alloc);
    for word in line.split(' ').skip(1) {
        words.push(String::from_str(alloc, word)?)?;
    }
    Ok(words)
}

fn main(rt: HostRuntime) -> io::Result<()> {
    let list = fs::read_to_string(&rt, "cases")?;
    let mut cases = 0u32;
    let mut alike = 0u32;
    for line in list.lines() {
        let name = line.split(' ').next().unwrap_or("");
        let words = words_of(rt.alloc(), line)?;
        let script = fs::read(&rt, format!(in rt.alloc(); "{name}.in")?)?;
        let output = fs::read(&rt, format!(in rt.alloc(); "{name}.out")?)?;
        cases = cases.saturating_add(1);
        if writes(
            &rt,
            rt.alloc(),
            words.as_slice(),
            script.as_slice(),
            output.as_slice(),
        )? {
            alike = alike.saturating_add(1);
            println!(rt; "{name}: as it must be")?;
        } else {
            println!(rt; "{name}: another trace")?;
        }
    }
    println!(rt; "{cases} cases, {alike} as they must be")
}

//! Checks texts and writes a line for each: first each front part of one script, then texts for each cause and for what
//! stands first where a line has several. The wanted lines are worked out from the grammar by hand.
#![tactic(auto)]

mod texts;

use script_text::{TextError, parse, print_check};
use std::alloc::Global;
use std::io;
use texts::{SCRIPT, TEXTS, WHOLE};
use usb_base::MemSink;

/// Writes what a check of a text says.
fn check(alloc: Global, sink: &mut MemSink, text: &[u8]) -> bool {
    let fault = match parse(alloc, text) {
        Ok(_) => None,
        Err(TextError::Fault { line, why }) => Some((line, why)),
        Err(TextError::Memory(_)) => return false,
    };
    print_check(fault, sink).is_ok()
}

fn main(rt: HostRuntime) -> io::Result<()> {
    let alloc = rt.alloc();
    let Ok(mut sink) = MemSink::build(alloc, 65_536, &[]) else {
        println!(rt; "no memory")?;
        return Ok(());
    };
    let mut done = true;
    for cut in 0..SCRIPT.len() + 1 {
        let (front, _) = SCRIPT.split_at(cut);
        done = check(alloc, &mut sink, front) && done;
    }
    for text in TEXTS {
        done = check(alloc, &mut sink, text) && done;
    }
    if let Ok(script) = parse(alloc, WHOLE) {
        let devices = script.devices.as_slice().len();
        let fates = script.fates.as_slice().len();
        let holds = script.holds.as_slice().len();
        let lines = script.lines.as_slice().len();
        println!(rt;
            "{} words, {devices} device, {fates} fate, {holds} hold, {lines} lines",
            script.words
        )?;
    }
    if !done {
        println!(rt; "no memory")?;
    }
    for line in sink.written().split(|b| *b == b'\n') {
        if let Ok(line) = str::from_utf8(line) {
            if !line.is_empty() {
                println!(rt; "{line}")?;
            }
        }
    }
    Ok(())
}

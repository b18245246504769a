ghost use Rattle.std.specs.Prelude.{None};

use app_ends::Status;
use app_machine::ehci_machine;
use std::alloc::Global;
use std::test::Fail;
use usb_base::{Failed, MemSink, MemSource, Sink, Source};

const SCRIPT: &[u8] =
    b"ehci 1\ndev 3 high\nep 3 1 in bulk 512\nreply 3 1 in fill 3 254\nopen 3 1 in\norder m 20\nget 3 1 in 515\norder m 20\n";

const REPORT: &[u8] = b"done 3.1.in 3 feff00\n";

fn one_word(alloc: Global, word: &str) -> Result<Vec<String>, Fail> {
    let mut words = Vec::new(alloc);
    words.push(String::from_str(alloc, word)?)?;
    Ok(words)
}

/// The program on one word over an input, where chosen reads and writes fail: its status, and what it wrote.
pub fn program(
    alloc: Global,
    word: &str,
    input: &[u8],
    reads: &[u32],
    writes: &[u32],
) -> Result<(Status, Vec<u8>), Fail> {
    program_of(alloc, &[word], input, reads, writes)
}

/// The same on some words.
pub fn program_of(
    alloc: Global,
    all: &[&str],
    input: &[u8],
    reads: &[u32],
    writes: &[u32],
) -> Result<(Status, Vec<u8>), Fail> {
    let mut words = Vec::new(alloc);
    for word in all {
        words.push(String::from_str(alloc, word)?)?;
    }
    let mut source = MemSource::build(alloc, input, reads)?;
    let mut sink = MemSink::build(alloc, 65536, writes)?;
    let status = ehci_machine(alloc, words.as_slice(), &mut source, &mut sink);
    let written = Vec::from_slice(alloc, sink.written())?;
    Ok((status, written))
}

// With ample memory the program reports, refuses and knows its words.
#[test]
fn ends_as_it_must(rt: HostRuntime) -> Result<(), Fail> {
    for (word, input, status, output) in [
        ("run", SCRIPT, Status::Ok, REPORT),
        ("run", b"", Status::Ok, b""),
        ("run", b"ehci 2\n", Status::Ok, b""),
        ("run", b"ehci 3\n", Status::Refused, b"line 1: version\n"),
        (
            "image",
            b"ehci 1\nmem 2047\n",
            Status::Refused,
            b"line 2: range\n",
        ),
        ("check", SCRIPT, Status::Ok, b"script ok\n"),
        (
            "check",
            b"ehci 1\ndev 200 high\n",
            Status::Refused,
            b"line 2: range\n",
        ),
        ("check", b"EHCI", Status::Refused, b"offset 4: length\n"),
        ("walk", SCRIPT, Status::Words, b""),
    ] {
        let (ended, written) = program(rt.alloc(), word, input, &[], &[])?;
        assert_eq!(rt; ended, status);
        assert_eq!(rt; written.as_slice(), output);
    }
    Ok(())
}

// Each read fails in turn, whatever is asked.
#[test]
fn each_read_fails(rt: HostRuntime) -> Result<(), Fail> {
    for word in ["run", "image", "check"] {
        for read in 0..2 {
            let (status, written) = program(rt.alloc(), word, SCRIPT, &[read], &[])?;
            assert_eq!(rt; status, Status::ReadFault);
            assert!(rt; written.is_empty());
        }
    }
    Ok(())
}

// Each write of a line fails.
#[test]
fn each_line_fails(rt: HostRuntime) -> Result<(), Fail> {
    for (word, input) in [
        ("run", b"ehci 3\n".as_slice()),
        ("image", b"ehci 3\n".as_slice()),
        ("check", SCRIPT),
        ("check", b"ehci 3\n".as_slice()),
        ("check", b"EHCI".as_slice()),
    ] {
        let (status, written) = program(rt.alloc(), word, input, &[], &[0])?;
        assert_eq!(rt; status, Status::WriteFault);
        assert!(rt; written.is_empty());
    }
    Ok(())
}

// Each write of a report fails in turn.
#[test]
fn each_write_of_a_report_fails(rt: HostRuntime) -> Result<(), Fail> {
    for write in 0..8 {
        let (status, written) = program(rt.alloc(), "run", SCRIPT, &[], &[write])?;
        assert!(rt; REPORT.starts_with(written.as_slice()));
        assert!(rt; status == Status::WriteFault || written.as_slice() == REPORT);
    }
    Ok(())
}

/// A source of one byte a call.
#[derive(Drop)]
struct OneByte(MemSource);

impl Source for OneByte {
    ghost left = { λ _. None };

    ghost faults = { λ s. s.0.faults };

    fn read(&mut self, into: &mut [u8]) -> Result<usize, Failed> {
        let n = usize::min(into.len(), 1);
        self.0.read(&mut into[..n])
    }
}

/// A sink that takes one byte a call.
#[derive(Drop)]
struct OneTaken(MemSink);

impl Sink for OneTaken {
    ghost written = { λ _. None };

    ghost faults = { λ s. s.0.faults };

    fn write(&mut self, piece: &[u8]) -> Result<usize, Failed> {
        let n = usize::min(piece.len(), 1);
        self.0.write(&piece[..n])
    }
}

// Short reads and short writes leave the output as it is.
#[test]
fn one_byte_a_call(rt: HostRuntime) -> Result<(), Fail> {
    let words = one_word(rt.alloc(), "run")?;
    let mut source = OneByte(MemSource::build(rt.alloc(), SCRIPT, &[])?);
    let mut sink = OneTaken(MemSink::build(rt.alloc(), 4096, &[])?);
    let status = ehci_machine(rt.alloc(), words.as_slice(), &mut source, &mut sink);
    assert_eq!(rt; status, Status::Ok);
    assert_eq!(rt; sink.0.written(), REPORT);
    Ok(())
}

// A sink with no room left ends in a write fault, with what fitted written.
#[test]
fn room_is_used_up(rt: HostRuntime) -> Result<(), Fail> {
    let words = one_word(rt.alloc(), "run")?;
    let mut source = MemSource::build(rt.alloc(), SCRIPT, &[])?;
    let mut sink = MemSink::build(rt.alloc(), 7, &[])?;
    assert_eq!(rt;
        ehci_machine(rt.alloc(), words.as_slice(), &mut source, &mut sink),
        Status::WriteFault
    );
    assert_eq!(rt; sink.written(), b"done 3.".as_slice());
    Ok(())
}

// Of a longer input no more is read than is needed to refuse it.
#[test]
fn too_long_an_input(rt: HostRuntime) -> Result<(), Fail> {
    let words = one_word(rt.alloc(), "run")?;
    let input = vec![in rt.alloc(); b'a'; 1_048_602]?;
    let mut source = MemSource::build(rt.alloc(), input.as_slice(), &[])?;
    let mut sink = MemSink::build(rt.alloc(), 100, &[])?;
    assert_eq!(rt;
        ehci_machine(rt.alloc(), words.as_slice(), &mut source, &mut sink),
        Status::Refused
    );
    assert_eq!(rt; sink.written(), b"line 0: long\n".as_slice());
    assert_eq!(rt; source.left().len(), 1);
    Ok(())
}

use app_ends::Status;
use app_probe_cli::ehci_probe;
use std::alloc::Global;
use std::process::Abort;
use std::test::Fail;
use usb_base::{MemSink, MemSource};

/// The bytes of an image of 2,048 words with an empty frame list at 0 and at 1000h the head of a ring with this link.
fn image(alloc: Global, link: u32) -> Result<Vec<u8>, Fail> {
    let mut bytes = Vec::from_slice(alloc, b"EHCI")?;
    for field in [1, 0, 0, 0x1000, 2048u32] {
        bytes.extend_from_slice(&field.to_le_bytes())?;
    }
    for place in 0..2048u32 {
        let word: u32 = match place {
            0x400 => link,
            0x401 => 0x40_a000,
            0x402 => 0x4000_0000,
            0..=0x3ff | 0x404 | 0x405 => 1,
            0x406 => 0x40,
            _ => 0,
        };
        bytes.extend_from_slice(&word.to_le_bytes())?;
    }
    Ok(bytes)
}

/// The program on these words over an input, where chosen reads and writes fail: its status, and what it wrote.
fn program(
    alloc: Global,
    words: &[&str],
    input: &[u8],
    reads: &[u32],
    writes: &[u32],
) -> Result<(Status, Vec<u8>), Fail> {
    let mut texts = Vec::new(alloc);
    for word in words {
        texts.push(String::from_str(alloc, word)?)?;
    }
    let mut source = MemSource::build(alloc, input, reads)?;
    let mut sink = MemSink::build(alloc, 4096, writes)?;
    let status = ehci_probe(alloc, texts.as_slice(), &mut source, &mut sink);
    let written = Vec::from_slice(alloc, sink.written())?;
    Ok((status, written))
}

#[test]
fn lines(rt: HostRuntime) -> Result<(), Fail> {
    let rows: [(&str, u32, &[u8]); 5] = [
        ("100", 0x1002, b"steps 100 foreign 0 fault no\n"),
        ("0", 0x10_0002, b"steps 0 foreign 0 fault no\n"),
        ("3", 0x10_0002, b"steps 3 foreign 0 fault no\n"),
        ("4", 0x10_0002, b"steps 4 foreign 1 fault yes\n"),
        ("100", 0x1046, b"steps 4 foreign 0 fault yes\n"),
    ];
    for (number, link, line) in rows {
        let bytes = image(rt.alloc(), link)?;
        let (status, written) = program(rt.alloc(), &[number], &bytes, &[], &[])?;
        assert_eq!(rt; status, Status::Ok);
        assert_eq!(rt; written.as_slice(), line);
    }
    Ok(())
}

/// The bytes of the same image as words from the address 7FF40000h on.
fn based(alloc: Global, link: u32) -> Result<Vec<u8>, Fail> {
    let mut bytes = image(alloc, link)?;
    let fields = [2, 0, 0x7ff4_0000, 0x7ff4_1000, 0x7ff4_0000u32];
    for (place, field) in fields.iter().enumerate() {
        for (k, byte) in field.to_le_bytes().iter().enumerate() {
            let at = 4 + 4 * place + k;
            if at < bytes.len() {
                bytes[at] = *byte;
            }
        }
    }
    Ok(bytes)
}

// A ring there goes round, and a link below the first word finds no word.
#[test]
fn words_from_a_base(rt: HostRuntime) -> Result<(), Fail> {
    let rows: [(u32, &[u8]); 2] = [
        (0x7ff4_1002, b"steps 100 foreign 0 fault no\n"),
        (0x1002, b"steps 4 foreign 1 fault yes\n"),
    ];
    for (link, line) in rows {
        let bytes = based(rt.alloc(), link)?;
        let (status, written) = program(rt.alloc(), &["100"], &bytes, &[], &[])?;
        assert_eq!(rt; status, Status::Ok);
        assert_eq!(rt; written.as_slice(), line);
    }
    Ok(())
}

/// Whether these words are refused before anything is read or written.
fn are_refused(rt: &impl Abort, alloc: Global, words: &[&str], input: &[u8]) -> Result<(), Fail> {
    let (status, written) = program(alloc, words, input, &[0], &[0])?;
    assert_eq!(rt; status, Status::Words);
    assert!(rt; written.is_empty());
    Ok(())
}

#[test]
fn words(rt: HostRuntime) -> Result<(), Fail> {
    let bytes = image(rt.alloc(), 0x1002)?;
    are_refused(&rt, rt.alloc(), &[], &bytes)?;
    are_refused(&rt, rt.alloc(), &["1", "2"], &bytes)?;
    for word in ["", "01", "+1", "-1", "4294967296", "0x10"] {
        are_refused(&rt, rt.alloc(), &[word], &bytes)?;
    }
    Ok(())
}

// Inputs that are no image, and each read and the one write failing.
#[test]
fn refusals_and_failures(rt: HostRuntime) -> Result<(), Fail> {
    let bytes = image(rt.alloc(), 0x1002)?;
    let cut = bytes.get(..8215).ok_or("a cut past the end")?;
    let (status, written) = program(rt.alloc(), &["9"], cut, &[], &[])?;
    assert_eq!(rt; status, Status::Refused);
    assert_eq!(rt; written.as_slice(), b"offset 8215: length\n".as_slice());
    let (status, written) = program(rt.alloc(), &["9"], cut, &[], &[0])?;
    assert_eq!(rt; status, Status::WriteFault);
    assert!(rt; written.is_empty());
    for read in 0..4 {
        let (status, written) = program(rt.alloc(), &["9"], &bytes, &[read], &[])?;
        assert_eq!(rt; status, Status::ReadFault);
        assert!(rt; written.is_empty());
    }
    let (status, written) = program(rt.alloc(), &["9"], &bytes, &[], &[0])?;
    assert_eq!(rt; status, Status::WriteFault);
    assert!(rt; written.is_empty());
    Ok(())
}

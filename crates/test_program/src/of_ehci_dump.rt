use crate::of_app_machine::program;
use app_ends::Status;
use std::alloc::Global;
use std::process::Abort;
use std::test::Fail;

/// The bytes of an image of 2,048 words: an empty frame list at 0 and the head of an empty ring at 1000h, with some
/// words, by address, written otherwise.
fn image(alloc: Global, list_base: u32, changes: &[(u32, u32)]) -> Result<Vec<u8>, Fail> {
    let mut words = [0u32; 2048];
    for element in 0..1024 {
        words[element] = 1;
    }
    let head = [
        (0x1000, 0x1002),
        (0x1004, 0x40_a000),
        (0x1008, 0x4000_0000),
        (0x1010, 1),
        (0x1014, 1),
        (0x1018, 0x40),
    ];
    for (address, word) in head.iter().chain(changes) {
        let at = (*address / 4) as usize;
        if at < words.len() {
            words[at] = *word;
        }
    }
    let mut bytes = Vec::from_slice(alloc, b"EHCI")?;
    for field in [1, 0, list_base, 0x1000, 2048u32] {
        bytes.extend_from_slice(&field.to_le_bytes())?;
    }
    for word in words {
        bytes.extend_from_slice(&word.to_le_bytes())?;
    }
    Ok(bytes)
}

const FIRST: &[u8] = b"frindex 0000 list 00000000 async 00001000 words 2048\n";

/// The frames' lines, if any, and those of the ring.
fn is_shown(
    rt: &impl Abort,
    alloc: Global,
    changes: &[(u32, u32)],
    lines: &[u8],
) -> Result<(), Fail> {
    let bytes = image(alloc, 0, changes)?;
    let (status, written) = program(alloc, "dump", &bytes, &[], &[])?;
    let mut text = Vec::from_slice(alloc, FIRST)?;
    text.extend_from_slice(lines)?;
    assert_eq!(rt; status, Status::Ok);
    assert_eq!(rt; written.as_slice(), text.as_slice());
    Ok(())
}

#[test]
fn rings_and_queues(rt: HostRuntime) -> Result<(), Fail> {
    let cases: [(&[(u32, u32)], &[u8]); 5] = [
        // The head alone.
        (
            &[],
            b"async\n  qh 00001000 0.0 high max 64 s 00 c 00 token 00000040\n  ring\n",
        ),
        // Two descriptors that lead to one another.
        (
            &[
                (0x1010, 0x1040),
                (0x1040, 0x1060),
                (0x1048, 0x200_0d80),
                (0x1060, 0x1040),
                (0x1068, 0x3_0480),
            ],
            b"async\n  qh 00001000 0.0 high max 64 s 00 c 00 token 00000040\n    qtd 00001040 in total 512 cerr 3 token 02000d80\n    qtd 00001060 out total 3 cerr 1 token 00030480\n    loop at 00001040\n  ring\n",
        ),
        // A queue head that leads to itself: the ring never comes back to its head.
        (
            &[
                (0x1000, 0x1042),
                (0x1040, 0x1042),
                (0x1044, 0x2003),
                (0x1050, 1),
                (0x1054, 1),
            ],
            b"async\n  qh 00001000 0.0 high max 64 s 00 c 00 token 00000040\n  qh 00001040 3.0 high max 0 s 00 c 00 token 00000000\n  loop at 00001040\n",
        ),
        // An isochronous descriptor in the ring.
        (
            &[(0x1000, 0x1040), (0x106c, 3)],
            b"async\n  qh 00001000 0.0 high max 64 s 00 c 00 token 00000040\n  kind at 00001040\n",
        ),
        // A queue head that the end of memory cuts.
        (
            &[(0x1000, 0x1fe2)],
            b"async\n  qh 00001000 0.0 high max 64 s 00 c 00 token 00000040\n  outside at 00001fe0\n",
        ),
    ];
    for (changes, lines) in cases {
        is_shown(&rt, rt.alloc(), changes, lines)?;
    }
    Ok(())
}

#[test]
fn frames(rt: HostRuntime) -> Result<(), Fail> {
    let cases: [(&[(u32, u32)], &[u8]); 2] = [
        // Frames 2 and 7 join, and frame 1023 leads out of memory.
        (
            &[
                (8, 0x1042),
                (0x1c, 0x1082),
                (0xffc, 0x8000),
                (0x1040, 0x1082),
                (0x1044, 0x8_2105),
                (0x1048, 0x1c01),
                (0x1050, 1),
                (0x1080, 1),
                (0x1084, 0x40_0207),
                (0x1088, 0x4402),
                (0x1090, 1),
            ],
            b"frame 2\n  qh 00001040 5.1 high max 8 s 01 c 1c token 00000000\n  qh 00001080 7.2 full max 64 s 02 c 44 token 00000000\nframe 7\n  seen 00001080\nframe 1023\n  outside at 00008000\nasync\n  qh 00001000 0.0 high max 64 s 00 c 00 token 00000040\n  ring\n",
        ),
        // A reserved bit in a queue head and in a siTD, a reserved length in an iTD and a reserved PID code in a qTD.
        (
            &[
                (0, 0x1042),
                (4, 0x1100),
                (8, 0x1144),
                (0x1010, 0x1180),
                (0x104c, 1),
                (0x1128, 0x401),
                (0x112c, 1),
                (0x1148, 0x1_0000),
                (0x1188, 0x300),
            ],
            b"frame 0\n  bad at 00001040 word 3 bit 0\nframe 1\n  bad at 00001100 word 10 bit 0\nframe 2\n  bad at 00001140 word 2 bit 16\nasync\n  qh 00001000 0.0 high max 64 s 00 c 00 token 00000040\n    bad at 00001180 word 2 bit 8\n  ring\n",
        ),
    ];
    for (changes, lines) in cases {
        is_shown(&rt, rt.alloc(), changes, lines)?;
    }
    Ok(())
}

fn is_refused(rt: &impl Abort, alloc: Global, input: &[u8], line: &[u8]) -> Result<(), Fail> {
    let (status, written) = program(alloc, "dump", input, &[], &[])?;
    assert_eq!(rt; status, Status::Refused);
    assert_eq!(rt; written.as_slice(), line);
    Ok(())
}

// An image cut at four places, a script, and an image whose frame list isn't aligned.
#[test]
fn refusals(rt: HostRuntime) -> Result<(), Fail> {
    let bytes = image(rt.alloc(), 0, &[])?;
    let cuts: [(usize, &[u8]); 4] = [
        (0, b"offset 0: length\n"),
        (23, b"offset 23: length\n"),
        (24, b"offset 24: length\n"),
        (8215, b"offset 8215: length\n"),
    ];
    for (count, line) in cuts {
        let front = bytes.get(..count).ok_or("a cut past the end")?;
        is_refused(&rt, rt.alloc(), front, line)?;
    }
    let script = b"ehci 1\ndev 3 high\nep 3 1 in bulk 512\n";
    is_refused(&rt, rt.alloc(), script, b"offset 0: magic\n")?;
    let unaligned = image(rt.alloc(), 0x800, &[])?;
    is_refused(&rt, rt.alloc(), &unaligned, b"offset 12: alignment\n")?;
    let (status, written) = program(rt.alloc(), "dump", script, &[], &[0])?;
    assert_eq!(rt; status, Status::WriteFault);
    assert!(rt; written.is_empty());
    Ok(())
}

// The world before its first line has the image of an empty frame list and an empty ring, which is an image. Each write of it fails in
// turn.
#[test]
fn images(rt: HostRuntime) -> Result<(), Fail> {
    let script = b"ehci 1\nmem 2048\n";
    let bytes = image(rt.alloc(), 0, &[])?;
    let (status, written) = program(rt.alloc(), "image", script, &[], &[])?;
    assert_eq!(rt; status, Status::Ok);
    assert_eq!(rt; written.as_slice(), bytes.as_slice());
    for write in 0..3u32 {
        let (status, written) = program(rt.alloc(), "image", script, &[], &[write])?;
        assert_eq!(rt; status, Status::WriteFault);
        assert_eq!(rt; written.is_empty(), write == 0);
        assert!(rt; bytes.as_slice().starts_with(written.as_slice()));
    }
    let (status, written) = program(rt.alloc(), "check", &bytes, &[], &[])?;
    assert_eq!(rt; status, Status::Ok);
    assert_eq!(rt; written.as_slice(), b"image ok\n".as_slice());
    Ok(())
}

// Each read fails in turn, and each write of a text of nine pages.
#[test]
fn each_call_of_dump_fails(rt: HostRuntime) -> Result<(), Fail> {
    let bytes = image(rt.alloc(), 0x2000, &[])?;
    for read in 0..4 {
        let (status, written) = program(rt.alloc(), "dump", &bytes, &[read], &[])?;
        assert_eq!(rt; status, Status::ReadFault);
        assert!(rt; written.is_empty());
    }
    let (status, whole) = program(rt.alloc(), "dump", &bytes, &[], &[])?;
    assert_eq!(rt; status, Status::Ok);
    for write in 0..9u32 {
        let (status, written) = program(rt.alloc(), "dump", &bytes, &[], &[write])?;
        assert_eq!(rt; status, Status::WriteFault);
        assert!(rt; written.len() <= 4096 * write as usize);
        assert_eq!(rt; written.is_empty(), write == 0);
        assert!(rt; whole.as_slice().starts_with(written.as_slice()));
    }
    Ok(())
}

ghost use Rattle.image_show.specs.ImageAt.{IsAlignedAt};

use crate::of_image_codec::{changed, opening};
use byteorder::{ByteOrder, LittleEndian};
use image_codec::{ImageError, ImageWhy, Refusal};
use image_show::{ImageAt, ShowError, decode_any, print_refusal, show};
use std::alloc::{AllocError, Global};
use std::process::Abort;
use std::test::Fail;
use usb_base::MemSink;

/// The bytes of the opening image with some words, by address, written otherwise.
fn with_words(alloc: Global, words: &[(u32, u32)]) -> Result<Vec<u8>, AllocError> {
    let mut bytes = opening(alloc)?;
    for (address, word) in words {
        let at = 24 + *address as usize;
        if at + 4 <= bytes.len() {
            LittleEndian::write_u32(&mut bytes[at..], *word);
        }
    }
    Ok(bytes)
}

fn text_of(alloc: Global, bytes: &[u8]) -> Result<MemSink, Fail> {
    let image = decode_any(alloc, bytes)?;
    let mut sink = MemSink::build(alloc, 100000, &[])?;
    show(alloc, &image, &mut sink)?;
    Ok(sink)
}

const FIRST: &[u8] = b"frindex 0000 list 00000000 async 00001000 words 2048\n";

/// The frames' lines, if any, and those of the ring.
fn is_shown(
    rt: &impl Abort,
    alloc: Global,
    words: &[(u32, u32)],
    lines: &[u8],
) -> Result<(), Fail> {
    let bytes = with_words(alloc, words)?;
    let sink = text_of(alloc, &bytes)?;
    let mut text = Vec::from_slice(alloc, FIRST)?;
    text.extend_from_slice(lines)?;
    assert_eq!(rt; sink.written(), text.as_slice());
    Ok(())
}

#[test]
fn rings(rt: HostRuntime) -> Result<(), Fail> {
    let cases: [(&[(u32, u32)], &[u8]); 8] = [
        (
            &[],
            b"async\n  qh 00001000 0.0 high max 64 s 00 c 00 token 00000040\n  ring\n",
        ),
        (
            &[
                (0x1000, 0x1042),
                (0x1040, 0x1042),
                (0x1044, 0x2003),
                (0x1050, 1),
                (0x1054, 1),
            ],
            b"async\n  qh 00001000 0.0 high max 64 s 00 c 00 token 00000040\n  qh 00001040 3.0 high max 0 s 00 c 00 token 00000000\n  loop at 00001040\n",
        ),
        (
            &[(0x1000, 0x1042), (0x1044, 0x3003)],
            b"async\n  qh 00001000 0.0 high max 64 s 00 c 00 token 00000040\n  bad at 00001040 word 1 bit 12\n",
        ),
        (
            &[(0x1000, 0x10_0002)],
            b"async\n  qh 00001000 0.0 high max 64 s 00 c 00 token 00000040\n  outside at 00100000\n",
        ),
        (
            &[(0x1000, 0x1046)],
            b"async\n  qh 00001000 0.0 high max 64 s 00 c 00 token 00000040\n  fstn at 00001040\n",
        ),
        (
            &[
                (0x1000, 0x1042),
                (0x1040, 0x1082),
                (0x1044, 3),
                (0x1050, 1),
                (0x1054, 1),
                (0x1080, 0x1042),
                (0x1084, 0x1104),
                (0x1090, 1),
                (0x1094, 1),
                (0x1098, 0x8000_0040),
            ],
            b"async\n  qh 00001000 0.0 high max 64 s 00 c 00 token 00000040\n  qh 00001040 3.0 full max 0 s 00 c 00 token 00000000\n  qh 00001080 4.1 low max 0 s 00 c 00 token 80000040\n  loop at 00001040\n",
        ),
        (
            &[(0x1000, 0x1040), (0x106c, 3)],
            b"async\n  qh 00001000 0.0 high max 64 s 00 c 00 token 00000040\n  kind at 00001040\n",
        ),
        (
            &[(0x1000, 0x1fe2)],
            b"async\n  qh 00001000 0.0 high max 64 s 00 c 00 token 00000040\n  outside at 00001fe0\n",
        ),
    ];
    for (words, lines) in cases {
        is_shown(&rt, rt.alloc(), words, lines)?;
    }
    Ok(())
}

#[test]
fn queues(rt: HostRuntime) -> Result<(), Fail> {
    let cases: [(&[(u32, u32)], &[u8]); 4] = [
        // Two descriptors that lead to one another.
        (
            &[
                (0x1010, 0x1040),
                (0x1040, 0x1060),
                (0x1048, 0x8_0d80),
                (0x1060, 0x1040),
                (0x1068, 0x8200_0600),
            ],
            b"async\n  qh 00001000 0.0 high max 64 s 00 c 00 token 00000040\n    qtd 00001040 in total 8 cerr 3 token 00080d80\n    qtd 00001060 setup total 512 cerr 1 token 82000600\n    loop at 00001040\n  ring\n",
        ),
        // The last descriptor of memory, and a link past it.
        (
            &[(0x1010, 0x1fe0), (0x1fe0, 0x2000)],
            b"async\n  qh 00001000 0.0 high max 64 s 00 c 00 token 00000040\n    qtd 00001fe0 out total 0 cerr 0 token 00000000\n    outside at 00002000\n  ring\n",
        ),
        // A reserved PID code.
        (
            &[(0x1010, 0x1040), (0x1048, 0x300)],
            b"async\n  qh 00001000 0.0 high max 64 s 00 c 00 token 00000040\n    bad at 00001040 word 2 bit 8\n  ring\n",
        ),
        // One descriptor below two queue heads.
        (
            &[
                (0x1000, 0x1082),
                (0x1010, 0x1040),
                (0x1040, 1),
                (0x1080, 0x1002),
                (0x1084, 0x2003),
                (0x1090, 0x1040),
                (0x1094, 1),
            ],
            b"async\n  qh 00001000 0.0 high max 64 s 00 c 00 token 00000040\n    qtd 00001040 out total 0 cerr 0 token 00000000\n  qh 00001080 3.0 high max 0 s 00 c 00 token 00000000\n    qtd 00001040 out total 0 cerr 0 token 00000000\n  ring\n",
        ),
    ];
    for (words, lines) in cases {
        is_shown(&rt, rt.alloc(), words, lines)?;
    }
    Ok(())
}

#[test]
fn frames(rt: HostRuntime) -> Result<(), Fail> {
    let cases: [(&[(u32, u32)], &[u8]); 3] = [
        // Two frames that join, and one that begins where the first does.
        (
            &[
                (0, 0x1042),
                (4, 0x1082),
                (8, 0x1042),
                (0x1040, 0x1082),
                (0x1044, 0x8_2105),
                (0x1048, 0x1c01),
                (0x1050, 1),
                (0x1080, 1),
                (0x1084, 0x40_0207),
                (0x1088, 0x4402),
                (0x1090, 1),
            ],
            b"frame 0\n  qh 00001040 5.1 high max 8 s 01 c 1c token 00000000\n  qh 00001080 7.2 full max 64 s 02 c 44 token 00000000\nframe 1\n  seen 00001080\nframe 2\n  seen 00001040\nasync\n  qh 00001000 0.0 high max 64 s 00 c 00 token 00000040\n  ring\n",
        ),
        // An iTD and a siTD, and an element outside of memory.
        (
            &[
                (0x14, 0x1100),
                (0xffc, 0x8000),
                (0x1100, 0x1144),
                (0x1124, 0x203),
                (0x1128, 0x900),
                (0x112c, 2),
                (0x1140, 1),
                (0x1144, 0x8409_0207),
                (0x114c, 0x14_0000),
                (0x1158, 1),
            ],
            b"frame 5\n  itd 00001100 3.2 in max 256 multi 2\n  sitd 00001140 7.2 in hub 9 port 4 total 20\nframe 1023\n  outside at 00008000\nasync\n  qh 00001000 0.0 high max 64 s 00 c 00 token 00000040\n  ring\n",
        ),
        // Reserved bits, twice each: a structure that wasn't shown isn't seen.
        (
            &[
                (0, 0x1042),
                (4, 0x1042),
                (8, 0x1100),
                (12, 0x1100),
                (16, 0x1144),
                (20, 0x1144),
                (0x104c, 1),
                (0x1128, 0x401),
                (0x112c, 1),
                (0x1148, 0x1_0000),
            ],
            b"frame 0\n  bad at 00001040 word 3 bit 0\nframe 1\n  bad at 00001040 word 3 bit 0\nframe 2\n  bad at 00001100 word 10 bit 0\nframe 3\n  bad at 00001100 word 10 bit 0\nframe 4\n  bad at 00001140 word 2 bit 16\nframe 5\n  bad at 00001140 word 2 bit 16\nasync\n  qh 00001000 0.0 high max 64 s 00 c 00 token 00000040\n  ring\n",
        ),
    ];
    for (words, lines) in cases {
        is_shown(&rt, rt.alloc(), words, lines)?;
    }
    Ok(())
}

/// The text of an image whose frame list stands behind the last word.
fn outside_text(alloc: Global) -> Result<String, AllocError> {
    let head = "frindex 3fff list 00002000 async 00001000 words 2048\n";
    let mut text = String::from_str(alloc, head)?;
    for n in 0..1024u32 {
        let frame = format!(in alloc; "frame {n}\n  outside at {:08x}\n", 0x2000 + 4 * n)?;
        text.push_str(frame.as_str())?;
    }
    text.push_str("async\n  qh 00001000 0.0 high max 64 s 00 c 00 token 00000040\n  ring\n")?;
    Ok(text)
}

/// An image shown into a sink whose call of this number fails: whether the sink is named, how many calls failed, and whether a front part
/// of the text was written, 4,096 bytes a call at most.
fn shown(alloc: Global, image: &ImageAt, text: &[u8], call: u32) -> Result<(bool, u64, bool), Fail>
    requires { IsAlignedAt image.now }
{
    let mut sink = MemSink::build(alloc, 100000, &[call])?;
    let is_failed = matches!(show(alloc, image, &mut sink), Err(ShowError::Failed(_)));
    let is_front = text.starts_with(sink.written());
    let is_short = sink.written().len() <= 4096 * call as usize;
    Ok((is_failed, sink.faults(), is_front && is_short))
}

#[test]
fn frame_list_outside_and_failing_sinks(rt: HostRuntime) -> Result<(), Fail> {
    let bytes = opening(rt.alloc())?;
    let outside = changed(rt.alloc(), &bytes, &[(8, 0xff), (9, 0x3f), (13, 0x20)])?;
    let text = outside_text(rt.alloc())?;
    let sink = text_of(rt.alloc(), &outside)?;
    assert_eq!(rt; sink.written(), text.as_bytes());
    let image = decode_any(rt.alloc(), &outside)?;
    for call in 0..9u32 {
        let shown = shown(rt.alloc(), &image, text.as_bytes(), call)?;
        assert_eq!(rt; shown, (true, 1, true));
    }
    Ok(())
}

#[test]
fn refusals_are_lines(rt: HostRuntime) -> Result<(), Fail> {
    let cases: [(u32, ImageWhy, &[u8]); 4] = [
        (8215, ImageWhy::Length, b"offset 8215: length\n"),
        (0, ImageWhy::Magic, b"offset 0: magic\n"),
        (4, ImageWhy::Version, b"offset 4: version\n"),
        (12, ImageWhy::Alignment, b"offset 12: alignment\n"),
    ];
    for (offset, why, line) in cases {
        let mut sink = MemSink::build(rt.alloc(), 100, &[])?;
        let is_told = print_refusal(Refusal { offset, why }, &mut sink).is_ok();
        assert_eq!(rt; (is_told, sink.written()), (true, line));
    }
    Ok(())
}

/// The bytes of the opening image as words from the address 7FF40000h on, some of them written otherwise.
fn based(alloc: Global, words: &[(u32, u32)]) -> Result<Vec<u8>, AllocError> {
    let bytes = with_words(alloc, words)?;
    changed(
        alloc,
        &bytes,
        &[
            (4, 2),
            (14, 0xf4),
            (15, 0x7f),
            (18, 0xf4),
            (19, 0x7f),
            (21, 0),
            (22, 0xf4),
            (23, 0x7f),
        ],
    )
}

// A ring, a queue and a frame whose links are addresses from the base on, and links that lead below it and past the last word.
#[test]
fn words_from_a_base(rt: HostRuntime) -> Result<(), Fail> {
    let cases: [(&[(u32, u32)], &[u8]); 4] = [
        (
            &[(0x1000, 0x7ff4_1002)],
            b"async\n  qh 7ff41000 0.0 high max 64 s 00 c 00 token 00000040\n  ring\n",
        ),
        (
            &[(0x1000, 0x1002)],
            b"async\n  qh 7ff41000 0.0 high max 64 s 00 c 00 token 00000040\n  outside at 00001000\n",
        ),
        (
            &[(0x1000, 1), (0x1010, 0x7ff4_1fe0), (0x1fe0, 0x7ff4_2000)],
            b"async\n  qh 7ff41000 0.0 high max 64 s 00 c 00 token 00000040\n    qtd 7ff41fe0 out total 0 cerr 0 token 00000000\n    outside at 7ff42000\n  end\n",
        ),
        (
            &[
                (0x14, 0x7ff4_1100),
                (0x18, 0x7ff4_1100),
                (0x1000, 1),
                (0x1100, 1),
                (0x1124, 0x203),
                (0x1128, 0x900),
                (0x112c, 2),
            ],
            b"frame 5\n  itd 7ff41100 3.2 in max 256 multi 2\nframe 6\n  seen 7ff41100\nasync\n  qh 7ff41000 0.0 high max 64 s 00 c 00 token 00000040\n  end\n",
        ),
    ];
    for (words, lines) in cases {
        let sink = text_of(rt.alloc(), &based(rt.alloc(), words)?)?;
        let mut text = Vec::from_slice(
            rt.alloc(),
            b"frindex 0000 list 7ff40000 async 7ff41000 words 2048 from 7ff40000\n",
        )?;
        text.extend_from_slice(lines)?;
        assert_eq!(rt; sink.written(), text.as_slice());
    }
    Ok(())
}

/// What is refused of bytes.
fn refused(alloc: Global, bytes: &[u8]) -> Option<(u32, ImageWhy)> {
    match decode_any(alloc, bytes) {
        Err(ImageError::Refused { offset, why }) => Some((offset, why)),
        _ => None,
    }
}

// The first wrong field of a header with a base, and wrong numbers of bytes behind it.
#[test]
fn refusals_with_a_base(rt: HostRuntime) -> Result<(), Fail> {
    let bytes = based(rt.alloc(), &[])?;
    assert_eq!(rt; refused(rt.alloc(), &bytes), None);
    let wrong = [
        ((0, b'e'), 0, ImageWhy::Magic),
        ((4, 3), 4, ImageWhy::Version),
        ((9, 0x40), 8, ImageWhy::Alignment),
        ((13, 8), 12, ImageWhy::Alignment),
        ((16, 16), 16, ImageWhy::Alignment),
        ((21, 8), 20, ImageWhy::Alignment),
    ];
    for (change, offset, why) in wrong {
        let copy = changed(rt.alloc(), &bytes, &[change])?;
        assert_eq!(rt; refused(rt.alloc(), &copy), Some((offset, why)));
    }
    for cut in [23, 24, 28, 4119, 4121, 8212, 8215u32] {
        let front = bytes.get(..cut as usize).ok_or("a cut past the end")?;
        assert_eq!(rt; refused(rt.alloc(), front), Some((cut, ImageWhy::Length)));
    }
    let one_page = bytes.get(..4120).ok_or("a cut past the end")?;
    assert_eq!(rt; refused(rt.alloc(), one_page), None);
    Ok(())
}

// The last address that words may begin at leaves the last page out.
#[test]
fn last_base(rt: HostRuntime) -> Result<(), Fail> {
    let bytes = based(rt.alloc(), &[])?;
    for (page, expected) in [
        (0xd0, None),
        (0xe0, Some((20, ImageWhy::Alignment))),
        (0xf0, Some((20, ImageWhy::Alignment))),
    ] {
        let changes = [(21, page), (22, 0xff), (23, 0xff)];
        let copy = changed(rt.alloc(), &bytes, &changes)?;
        assert_eq!(rt; refused(rt.alloc(), &copy), expected);
    }
    Ok(())
}

ghost use Rattle.image_codec.specs.Image.{IsAligned};

use image_codec::{Image, ImageError, ImageWhy, Refusal, decode, encode};
use std::alloc::{AllocError, Global};
use std::test::Fail;
use usb_base::MemSink;

const HEADER: [u8; 24] = [
    0x45, 0x48, 0x43, 0x49, 1, 0, 0, 0, 0, 0, 0, 0, 0, 0, 0, 0, 0, 0x10, 0, 0, 0, 8, 0, 0,
];

const HEAD: [u8; 48] = [
    2, 0x10, 0, 0, 0, 0xa0, 0x40, 0, 0, 0, 0, 0x40, 0, 0, 0, 0, 1, 0, 0, 0, 1, 0, 0, 0, 0x40, 0, 0,
    0, 0, 0, 0, 0, 0, 0, 0, 0, 0, 0, 0, 0, 0, 0, 0, 0, 0, 0, 0, 0,
];

/// The image of a host as it opens: an empty frame list at 0, the head of the ring at 1000h.
pub fn opening(alloc: Global) -> Result<Vec<u8>, AllocError> {
    let mut bytes = Vec::from_slice(alloc, &HEADER)?;
    for _element in 0..1024 {
        bytes.extend_from_slice(&[1, 0, 0, 0])?;
    }
    bytes.extend_from_slice(&HEAD)?;
    bytes.resize(8216, 0)?;
    Ok(bytes)
}

pub fn changed(
    alloc: Global,
    bytes: &[u8],
    changes: &[(usize, u8)],
) -> Result<Vec<u8>, AllocError> {
    let mut copy = Vec::from_slice(alloc, bytes)?;
    for (at, value) in changes {
        if *at < copy.len() {
            copy[*at] = *value;
        }
    }
    Ok(copy)
}

fn refused(answer: Result<Image, ImageError>) -> Option<Refusal> {
    match answer {
        Err(ImageError::Refused { offset, why }) => Some(Refusal { offset, why }),
        _ => None,
    }
}

/// What is refused of the bytes with some of them written otherwise.
fn refusal_of(
    alloc: Global,
    bytes: &[u8],
    changes: &[(usize, u8)],
) -> Result<Option<Refusal>, Fail> {
    let copy = changed(alloc, bytes, changes)?;
    Ok(refused(decode(alloc, &copy)))
}

/// An image encoded into a sink of this room some of whose calls fail: whether all of it was written, how many calls failed, whether what
/// was written is a front part of these bytes, and its length.
fn encoded(
    alloc: Global,
    image: &Image,
    bytes: &[u8],
    room: u32,
    fails: &[u32],
) -> Result<((bool, u64, bool), usize), Fail>
    requires { IsAligned image.now }
{
    let mut sink = MemSink::build(alloc, room, fails)?;
    let is_whole = encode(image, &mut sink).is_ok();
    let is_front = bytes.starts_with(sink.written());
    Ok(((is_whole, sink.faults(), is_front), sink.written().len()))
}

#[test]
fn opening_image_both_ways(rt: HostRuntime) -> Result<(), Fail> {
    let bytes = opening(rt.alloc())?;
    let image = decode(rt.alloc(), &bytes)?;
    assert_eq!(rt;
        (bytes.len(), image.frindex, image.list_base, image.async_at),
        (8216, 0, 0, 0x1000)
    );
    let words = image.words.as_slice();
    assert_eq!(rt; (words.len(), words[0], words[1023]), (2048, 1, 1));
    assert_eq!(rt;
        &words[1024..1032],
        [0x1002, 0x40a000, 0x40000000, 0, 1, 1, 0x40, 0].as_slice()
    );
    let encoded = encoded(rt.alloc(), &image, &bytes, 9000, &[])?;
    assert_eq!(rt; encoded, ((true, 0, true), 8216));
    Ok(())
}

#[test]
fn cut_images_name_their_length(rt: HostRuntime) -> Result<(), Fail> {
    let bytes = opening(rt.alloc())?;
    for k in 0..80u32 {
        let cut = if k < 40 { k } else { 8136 + k };
        let front = bytes.get(..cut as usize).ok_or("a cut past the end")?;
        let want = Refusal {
            offset: cut,
            why: ImageWhy::Length,
        };
        assert_eq!(rt; refused(decode(rt.alloc(), front)), Some(want));
    }
    let want = Refusal {
        offset: 4120,
        why: ImageWhy::Length,
    };
    assert_eq!(rt; refusal_of(rt.alloc(), &bytes, &[(21, 4)])?, Some(want));
    Ok(())
}

#[test]
fn first_wrong_field_is_named(rt: HostRuntime) -> Result<(), Fail> {
    let bytes = opening(rt.alloc())?;
    let wrong = [
        ((3, b'i'), 0, ImageWhy::Magic),
        ((4, 2), 4, ImageWhy::Version),
        ((7, 1), 4, ImageWhy::Version),
        ((9, 0x40), 8, ImageWhy::Alignment),
        ((13, 8), 12, ImageWhy::Alignment),
        ((16, 16), 16, ImageWhy::Alignment),
        ((20, 8), 20, ImageWhy::Alignment),
        ((21, 0), 20, ImageWhy::Alignment),
        ((22, 16), 20, ImageWhy::Alignment),
        ((21, 12), 8216, ImageWhy::Length),
    ];
    for (i, (first, offset, why)) in wrong.iter().enumerate() {
        let want = Some(Refusal {
            offset: *offset,
            why: *why,
        });
        assert_eq!(rt; refusal_of(rt.alloc(), &bytes, &[*first])?, want);
        for (second, _, _) in wrong.iter().skip(i) {
            assert_eq!(rt; refusal_of(rt.alloc(), &bytes, &[*second, *first])?, want);
        }
    }
    Ok(())
}

#[test]
fn failing_sinks_get_a_front_part(rt: HostRuntime) -> Result<(), Fail> {
    let bytes = opening(rt.alloc())?;
    let image = decode(rt.alloc(), &bytes)?;
    for (call, is_whole, faults) in [(0, false, 1), (1, false, 1), (2, false, 1), (3, true, 0)] {
        let (encoded, _) = encoded(rt.alloc(), &image, &bytes, 9000, &[call])?;
        assert_eq!(rt; encoded, (is_whole, faults, true));
    }
    let narrow = encoded(rt.alloc(), &image, &bytes, 5000, &[])?;
    assert_eq!(rt; narrow, ((false, 1, true), 5000));
    Ok(())
}

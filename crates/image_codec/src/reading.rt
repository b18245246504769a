ghost use Rattle.std.specs.Prelude.{◌≡◌, ℕ, ◌*◌, ◌+◌, ◌≤◌, ◌%◌, length, drop, slice_index, IfOk, vec_len, vec_capacity};
ghost use Rattle.image_codec.specs.Image.{field_at, fields_of, image_bytes, image_fault, image_of, is_word_count, refusal_of, IsAligned, IsImage};

use crate::image::{Image, ImageError, ImageWhy, Refusal};
use byteorder::{ByteOrder, LittleEndian};
use std::alloc::Global;
use usb_base::limits::MOST_MEMORY;
use usb_base::{ListOf, Memory};

const HEADER: usize = 24;

/// The image that `bytes` are. It refuses exactly the bytes of no image, with the first refusal in the order of the
/// format: fewer than 24 bytes (`Length` at their number), `Magic` at 0, `Version` at 4, `Alignment` at 8, 12, 16 and
/// 20, and a total other than 24 and four for each word (`Length` at the lesser of the two). `Memory` is want of
/// memory for the words; it never comes for bytes of no image.
pub fn decode(alloc: Global, bytes: &[u8]) -> Result<Image, ImageError>
    ensures refused { refusal_of result ≡ image_fault bytes.now }
    ensures image { IfOk result (λ i. i ≡ image_of bytes.now) }
    ensures bytes { IfOk result (λ i. IsImage bytes.now i) }
{
    if let Some(refusal) = fault_of(bytes) {
        return Err(ImageError::Refused {
            offset: refusal.offset,
            why: refusal.why,
        });
    }
    match image_at(alloc, bytes) {
        Ok(image) => Ok(image),
        Err(memory) => Err(ImageError::Memory(memory)),
    }
}

fn image_at(alloc: Global, bytes: &[u8]) -> Result<Image, Memory>
    requires { image_fault bytes.now ≡ None }
    ensures { IfOk result (λ i. i ≡ image_of bytes.now) }
{
    let (_, rest) = bytes.split_at(HEADER);
    let words = words_of(alloc, rest)?;
    Ok(Image {
        frindex: field(bytes, 8) as u16,
        list_base: field(bytes, 12),
        async_at: field(bytes, 16),
        words: ListOf::of(words),
    })
}

/// The field of 32 bits at a byte offset, its lowest byte first.
pub fn field(bytes: &[u8], at: usize) -> u32
    requires { at + 4 ≤ length bytes.now }
    ensures { result ≡ field_at bytes.now at }
{
    LittleEndian::read_u32(&bytes[at..])
}

/// The words that bytes are, four each; what is left over is none.
pub fn words_of(alloc: Global, bytes: &[u8]) -> Result<Vec<u32>, Memory>
    ensures { IfOk result (λ words. words.items ≡ fields_of bytes.now) }
{
    let mut words = Vec::with_capacity(alloc, bytes.len() / 4)?;
    let mut rest = bytes;
    while rest.len() >= 4 {
        words.push_reserved(LittleEndian::read_u32(rest));
        rest = &rest[4..];
    }
    Ok(words)
}

fn refusal(offset: u32, why: ImageWhy) -> Option<Refusal>
    ensures { result ≡ Some (record { offset = offset; why = why }) }
{
    Some(Refusal { offset, why })
}

fn fault_of(bytes: &[u8]) -> Option<Refusal>
    ensures { result ≡ image_fault bytes.now }
{
    if bytes.len() < HEADER {
        return refusal(bytes.len() as u32, ImageWhy::Length);
    }
    if bytes[0] != b'E' || bytes[1] != b'H' || bytes[2] != b'C' || bytes[3] != b'I' {
        return refusal(0, ImageWhy::Magic);
    }
    if field(bytes, 4) != 1 {
        return refusal(4, ImageWhy::Version);
    }
    if field(bytes, 8) > 0x3fff {
        return refusal(8, ImageWhy::Alignment);
    }
    if field(bytes, 12) % 4096 != 0 {
        return refusal(12, ImageWhy::Alignment);
    }
    if field(bytes, 16) % 32 != 0 {
        return refusal(16, ImageWhy::Alignment);
    }
    let words = field(bytes, 20);
    if words % 1024 != 0 || words < 1024 || words > MOST_MEMORY {
        return refusal(20, ImageWhy::Alignment);
    }
    let total = 24 + 4 * words;
    if bytes.len() != total as usize {
        return refusal(
            usize::min(bytes.len(), total as usize) as u32,
            ImageWhy::Length,
        );
    }
    None
}

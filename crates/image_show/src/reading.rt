ghost use Rattle.std.specs.Prelude.{◌≡◌, ℕ, ◌≤◌, ◌-◌, ◌/◌, true, false, None, Some, length, IfOk};
ghost use Rattle.image_codec.specs.Image.{field_at, first_refusal, image_fault, image_of};
ghost use Rattle.image_show.specs.ImageAt.{any_fault, any_image, any_refusal, behind, checks_at, from_start, is_second, second_image, IsAlignedAt};

use crate::image_at::ImageAt;
use image_codec::{Image, ImageError, ImageWhy, Refusal, decode, field, words_of};
use std::alloc::Global;
use usb_base::limits::MOST_MEMORY;
use usb_base::{ListOf, Memory};

const HEADER: usize = 24;

/// How many bytes the longest image has.
const LONGEST: usize = 1_048_600;

/// The image that `bytes` are, of either form. It refuses exactly the bytes of no image: those that aren't of version 2 as `decode` does,
/// and those of version 2 with the first refusal in the order of the format: `Magic` at 0, `Alignment` at 8, 12, 16 and 20, `Length` at
/// the number of bytes. `Memory` is want of memory for the words; it never comes for bytes of no image.
pub fn decode_any(alloc: Global, bytes: &[u8]) -> Result<ImageAt, ImageError>
    ensures refused { any_refusal result ≡ any_fault bytes.now }
    ensures image { IfOk result (λ i. i ≡ any_image bytes.now) }
    ensures aligned { IfOk result (λ i. IsAlignedAt i) }
{
    if is_second(bytes) {
        return decode_second(alloc, bytes);
    }
    decode_first(alloc, bytes)
}

fn decode_first(alloc: Global, bytes: &[u8]) -> Result<ImageAt, ImageError>
    ensures refused { any_refusal result ≡ image_fault bytes.now }
    ensures image { IfOk result (λ i. i ≡ from_start (image_of bytes.now)) }
    ensures aligned { IfOk result (λ i. IsAlignedAt i) }
{
    match decode(alloc, bytes) {
        Ok(image) => Ok(start(image)),
        Err(ImageError::Refused { offset, why }) => Err(ImageError::Refused { offset, why }),
        Err(ImageError::Memory(memory)) => Err(ImageError::Memory(memory)),
    }
}

/// An image of the first form.
fn start(image: Image) -> ImageAt
    ensures { result ≡ from_start image }
{
    ImageAt {
        frindex: image.frindex,
        list_base: image.list_base,
        async_at: image.async_at,
        base: 0,
        words: image.words,
    }
}

/// Whether bytes are of the second form, if of any.
fn is_second(bytes: &[u8]) -> bool
    ensures { result ≡ is_second bytes.now }
{
    bytes.len() >= HEADER && field(bytes, 4) == 2
}

fn decode_second(alloc: Global, bytes: &[u8]) -> Result<ImageAt, ImageError>
    requires { is_second bytes.now ≡ true }
    ensures refused { any_refusal result ≡ first_refusal (checks_at bytes.now) }
    ensures image { IfOk result (λ i. i ≡ second_image bytes.now) }
    ensures aligned { IfOk result (λ i. IsAlignedAt i) }
{
    if let Some(refusal) = fault_of(bytes) {
        return Err(ImageError::Refused {
            offset: refusal.offset,
            why: refusal.why,
        });
    }
    match image_in(alloc, bytes) {
        Ok(image) => Ok(image),
        Err(memory) => Err(ImageError::Memory(memory)),
    }
}

fn image_in(alloc: Global, bytes: &[u8]) -> Result<ImageAt, Memory>
    requires { first_refusal (checks_at bytes.now) ≡ None }
    ensures { IfOk result (λ i. i ≡ second_image bytes.now) }
{
    let (_, rest) = bytes.split_at(HEADER);
    let words = words_of(alloc, rest)?;
    Ok(ImageAt {
        frindex: field(bytes, 8) as u16,
        list_base: field(bytes, 12),
        async_at: field(bytes, 16),
        base: field(bytes, 20),
        words: ListOf::of(words),
    })
}

fn refusal(offset: u32, why: ImageWhy) -> Option<Refusal>
    ensures { result ≡ Some (record { offset = offset; why = why }) }
{
    Some(Refusal { offset, why })
}

fn fault_of(bytes: &[u8]) -> Option<Refusal>
    requires { is_second bytes.now ≡ true }
    ensures { result ≡ first_refusal (checks_at bytes.now) }
{
    if bytes[0] != b'E' || bytes[1] != b'H' || bytes[2] != b'C' || bytes[3] != b'I' {
        return refusal(0, ImageWhy::Magic);
    }
    if field(bytes, 8) > 0x3fff {
        return refusal(8, ImageWhy::Alignment);
    }
    if field(bytes, 12) % 4096 != 0 {
        return refusal(12, ImageWhy::Alignment);
    }
    if field(bytes, 16) % 32 != 0 {
        return refusal(16, ImageWhy::Alignment);
    }
    let behind = bytes.len() - HEADER;
    let base = field(bytes, 20);
    if base % 4096 != 0 || behind >= 0x1_0000_0000 - base as usize {
        return refusal(20, ImageWhy::Alignment);
    }
    let words = behind / 4;
    if behind % 4 != 0 || words % 1024 != 0 || words < 1024 || words > MOST_MEMORY as usize {
        return refusal(usize::min(bytes.len(), LONGEST) as u32, ImageWhy::Length);
    }
    None
}

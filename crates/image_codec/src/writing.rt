ghost use Rattle.std.specs.Prelude.{◌≡◌, ℕ, ◌≤◌, ◌<◌, ◌++◌, length};
ghost use Rattle.std.specs.List.{flat_map};
ghost use Rattle.usb_base.specs.Outside.{Prints};
ghost use Rattle.image_codec.specs.Image.{field_bytes, header_bytes, image_bytes, IsAligned};
ghost use Rattle.image_codec.specs.Printing.{PrintsOn};

use crate::image::Image;
use crate::page::Page;
use byteorder::{ByteOrder, LittleEndian};
use usb_base::{Failed, Sink};

/// Writes the bytes of an image whose fields and number of words keep their ranges and alignments. It takes no
/// memory. `Failed` comes only where the sink's count of faults rose, with a front part of the bytes written.
pub fn encode<K: Sink>(image: &Image, sink: &mut K) -> Result<(), Failed>
    requires { IsAligned image.now }
    ensures { Prints K.written K.faults sink.old sink.new result (image_bytes image.now) }
{
    let mut page = Page::new();
    page.put(sink, &header_of(image))?;
    put_words(&mut page, sink, image.words.as_slice())?;
    page.flush(sink)
}

#[tactic(auto, unfolding(crate::specs::Image::header_bytes))]
fn header_of(image: &Image) -> [u8; 24]
    requires { length image.now.words < 4294967296 }
    ensures { result ≡ header_bytes image.now }
{
    let mut header = [0; 24];
    header[..4].copy_from_slice(b"EHCI");
    LittleEndian::write_u32(&mut header[4..], 1);
    LittleEndian::write_u32(&mut header[8..], image.frindex as u32);
    LittleEndian::write_u32(&mut header[12..], image.list_base);
    LittleEndian::write_u32(&mut header[16..], image.async_at);
    LittleEndian::write_u32(&mut header[20..], image.words.as_slice().len() as u32);
    header
}

fn bytes_of(word: u32) -> [u8; 4]
    ensures { result ≡ field_bytes word }
{
    let mut bytes = [0; 4];
    LittleEndian::write_u32(&mut bytes, word);
    bytes
}

fn put_words<K: Sink>(page: &mut Page, sink: &mut K, words: &[u32]) -> Result<(), Failed>
    ensures { PrintsOn K.written K.faults sink.old sink.new page.old page.new result (flat_map field_bytes words.now) }
{
    for word in words {
        page.put(sink, &bytes_of(*word))?;
    }
    Ok(())
}

ghost use Rattle.std.specs.Prelude.{◌≡◌, ℕ, ◌+◌, ◌≤◌, ◌<◌, ◌++◌, None, length, OnOk, OnErr};
ghost use Rattle.usb_base.specs.Limits.{frame_list_length};
ghost use Rattle.link_words.specs.Links.{IsAligned as IsLinkAligned};
ghost use Rattle.image_show.specs.Base.{lowered, raised};
ghost use Rattle.image_show.specs.ImageAt.{IsAlignedAt};
ghost use Rattle.image_show.specs.Linked.{count, list_text, passed};
ghost use Rattle.image_show.specs.Marks.{AreMarks};
ghost use Rattle.image_codec.specs.Printing.{PrintsOn};
ghost use Rattle.image_show.specs.Shown.{chain, element_at, frame_first, frame_line, frame_text, frames_text, outside_text, ring_text, seen_before, units};

use crate::base::{link_from, lowered, raised};
use crate::chain::{ShownList, put_chain};
use crate::ending::Ending;
use crate::image_at::ImageAt;
use crate::lines::{line_of_ending, line_of_frame};
use crate::structures::{reaches_outside, read_word};
use image_codec::Page;
use link_words::Link;
use usb_base::limits::FRAME_LIST_LENGTH;
use usb_base::{Failed, Sink};

/// The elements of a frame list (EHCI 1.0, 3.1).
const FRAMES: u32 = 1024;

/// Prints the chains of the 1,024 frames.
pub fn put_frames<K: Sink>(
    page: &mut Page,
    sink: &mut K,
    image: &ImageAt,
    lists: &mut [u32],
    queues: &mut [u32],
) -> Result<(), Failed>
    requires image { IsAlignedAt image.now }
    requires lists_whole { length lists.old ≡ units image.now.words }
    requires queues_whole { length queues.old ≡ units image.now.words }
    requires marks { AreMarks lists.old queues.old 1 (seen_before image.now 0) }
    ensures printed { PrintsOn K.written K.faults sink.old sink.new page.old page.new result (frames_text image.now frame_list_length) }
    ensures marked { OnOk result (AreMarks lists.new queues.new 1025 (seen_before image.now frame_list_length)) }
{
    for n in 0..FRAME_LIST_LENGTH {
        put_frame(page, sink, image, lists, queues, n)?;
    }
    Ok(())
}

/// Prints the ring.
#[tactic(auto, unfolding(crate::specs::Shown::ring_text))]
pub fn put_ring<K: Sink>(
    page: &mut Page,
    sink: &mut K,
    image: &ImageAt,
    lists: &mut [u32],
    queues: &mut [u32],
) -> Result<(), Failed>
    requires image { IsAlignedAt image.now }
    requires lists_whole { length lists.old ≡ units image.now.words }
    requires queues_whole { length queues.old ≡ units image.now.words }
    requires marks { AreMarks lists.old queues.old 1025 (seen_before image.now frame_list_length) }
    ensures { PrintsOn K.written K.faults sink.old sink.new page.old page.new result (ring_text image.now) }
{
    page.put(sink, b"async\n")?;
    let ring = lowered(image.base, image.async_at);
    let place = ShownList {
        frames: FRAME_LIST_LENGTH,
        home: Some(ring),
    };
    put_chain(page, sink, image, lists, queues, place, Link::Qh(ring))
}

/// The place of a frame list element.
fn element_at(image: &ImageAt, n: u32) -> u32
    requires image { IsAlignedAt image.now }
    requires frame { n < frame_list_length }
    ensures { result ≡ element_at image.now n }
{
    lowered(image.base, image.list_base) + 4 * n
}

fn put_frame<K: Sink>(
    page: &mut Page,
    sink: &mut K,
    image: &ImageAt,
    lists: &mut [u32],
    queues: &mut [u32],
    n: u32,
) -> Result<(), Failed>
    requires image { IsAlignedAt image.now }
    requires lists_whole { length lists.old ≡ units image.now.words }
    requires queues_whole { length queues.old ≡ units image.now.words }
    requires frame { n < frame_list_length }
    requires marks { AreMarks lists.old queues.old (n + 1) (seen_before image.now n) }
    ensures printed { PrintsOn K.written K.faults sink.old sink.new page.old page.new result (frame_text image.now n) }
    ensures marked { OnOk result (AreMarks lists.new queues.new (n + 2) (seen_before image.now (n + 1))) }
{
    let words = image.words.as_slice();
    let at = element_at(image, n);
    if reaches_outside(words, at, 1) {
        return put_outside(page, sink, n, raised(image.base, at));
    }
    let first = link_from(image.base, read_word(words, at));
    if first.is_end() {
        return Ok(());
    }
    put_listed(page, sink, image, lists, queues, n, first)
}

fn put_listed<K: Sink>(
    page: &mut Page,
    sink: &mut K,
    image: &ImageAt,
    lists: &mut [u32],
    queues: &mut [u32],
    n: u32,
    first: Link,
) -> Result<(), Failed>
    requires image { IsAlignedAt image.now }
    requires lists_whole { length lists.old ≡ units image.now.words }
    requires queues_whole { length queues.old ≡ units image.now.words }
    requires frame { n < frame_list_length }
    requires marks { AreMarks lists.old queues.old (n + 1) (seen_before image.now n) }
    requires aligned { IsLinkAligned first }
    ensures printed { PrintsOn K.written K.faults sink.old sink.new page.old page.new result (frame_line n ++ list_text (chain image.now.base image.now.words None (seen_before image.now n)) first) }
    ensures marked { let l = chain image.now.base image.now.words None (seen_before image.now n) in
        OnOk result (AreMarks lists.new queues.new (n + 2) (seen_before image.now n ++ passed l first (count l first))) }
{
    page.put(sink, line_of_frame(n).as_slice())?;
    let place = ShownList {
        frames: n,
        home: None,
    };
    put_chain(page, sink, image, lists, queues, place, first)
}

fn put_outside<K: Sink>(page: &mut Page, sink: &mut K, n: u32, at: u32) -> Result<(), Failed>
    ensures { PrintsOn K.written K.faults sink.old sink.new page.old page.new result (outside_text n at) }
{
    page.put(sink, line_of_frame(n).as_slice())?;
    page.put(sink, line_of_ending(b"  ", Ending::Outside(at)).as_slice())
}

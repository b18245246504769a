ghost use Rattle.std.specs.Prelude.{◌≡◌, ℕ, ◌+◌, ◌*◌, ◌/◌, ◌%◌, ◌≤◌, ◌<◌, ◌++◌, false, length, OnOk, OnErr, IfNone};
ghost use Rattle.usb_base.specs.Limits.{frame_list_length, most_memory};
ghost use Rattle.link_words.specs.Links.{IsAligned as IsLinkAligned, address_of, is_end};
ghost use Rattle.image_show.specs.Base.{raised};
ghost use Rattle.image_show.specs.ImageAt.{IsAlignedAt};
ghost use Rattle.image_show.specs.Linked.{count, list_text, passed};
ghost use Rattle.image_show.specs.Marks.{is_marked_before, AreMarks};
ghost use Rattle.image_codec.specs.Printing.{PrintsOn};
ghost use Rattle.image_show.specs.Shown.{bad_of, chain, chain_ending, end_of, is_fstn, is_home, is_queue_head, seen_before, size_of, units};

use crate::base::{link_from, raised};
use crate::ending::Ending;
use crate::image_at::ImageAt;
use crate::lines::line_of_ending;
use crate::queue::has_mark;
use crate::structure::put_structure;
use crate::structures::{reaches_outside, read_itd, read_queue_head, read_sitd, read_word};
use image_codec::Page;
use link_words::{Bad, Link};
use usb_base::{Failed, Sink};

/// Which list of an image is shown.
#[derive(Clone, Copy)]
pub struct ShownList {
    /// How many frames are shown before it.
    pub frames: u32,
    /// The place where the ring begins, and none for the chain of a frame.
    pub home: Option<u32>,
}

/// Prints a list from its first link on, and marks its structures.
pub fn put_chain<K: Sink>(
    page: &mut Page,
    sink: &mut K,
    image: &ImageAt,
    lists: &mut [u32],
    queues: &mut [u32],
    place: ShownList,
    first: Link,
) -> Result<(), Failed>
    requires image { IsAlignedAt image.now }
    requires lists_whole { length lists.old ≡ units image.now.words }
    requires queues_whole { length queues.old ≡ units image.now.words }
    requires frames { place.frames ≤ frame_list_length }
    requires marks { AreMarks lists.old queues.old (place.frames + 1) (seen_before image.now place.frames) }
    requires aligned { IsLinkAligned first }
    ensures printed { PrintsOn K.written K.faults sink.old sink.new page.old page.new result (list_text (chain image.now.base image.now.words place.home (seen_before image.now place.frames)) first) }
    ensures marked { let l = chain image.now.base image.now.words place.home (seen_before image.now place.frames) in
        OnOk result (AreMarks lists.new queues.new (place.frames + 2) (seen_before image.now place.frames ++ passed l first (count l first))) }
{
    let words = image.words.as_slice();
    let base = image.base;
    let number = place.frames + 1;
    let mut link = first;
    let mut begun = false;
    loop {
        let at = link.address();
        let here = has_mark(lists, number, at);
        let earlier = has_earlier_mark(lists, number, at);
        if let Some(ending) = ending_of(words, base, place.home, begun, here, earlier, link) {
            return page.put(sink, line_of_ending(b"  ", ending).as_slice());
        }
        put_structure(page, sink, words, queues, base, link)?;
        lists[(at / 32) as usize] = number;
        link = link_from(base, read_word(words, at));
        begun = true;
    }
}

fn has_earlier_mark(marks: &[u32], mark: u32, at: u32) -> bool
    ensures { result ≡ is_marked_before marks.now mark at }
{
    let unit = (at / 32) as usize;
    unit < marks.len() && 0 < marks[unit] && marks[unit] < mark
}

fn words_of_link(link: Link) -> u32
    ensures size { result ≡ size_of link }
    ensures bound { result ≤ 16 }
    ensures structure { is_end link ≡ false → is_fstn link ≡ false → 7 ≤ result }
{
    match link {
        Link::End => 0,
        Link::Itd(_) => 16,
        Link::Qh(_) => 12,
        Link::Sitd(_) => 7,
        Link::Fstn(_) => 2,
    }
}

fn is_fstn_link(link: Link) -> bool
    ensures { result ≡ is_fstn link }
{
    match link {
        Link::Fstn(_) => true,
        Link::End | Link::Itd(_) | Link::Qh(_) | Link::Sitd(_) => false,
    }
}

fn is_queue_head_link(link: Link) -> bool
    ensures { result ≡ is_queue_head link }
{
    match link {
        Link::Qh(_) => true,
        Link::End | Link::Itd(_) | Link::Sitd(_) | Link::Fstn(_) => false,
    }
}

fn end_at(home: Option<u32>) -> Ending
    ensures { result ≡ end_of home }
{
    match home {
        None => Ending::Silent,
        Some(_) => Ending::End,
    }
}

fn comes_home(home: Option<u32>, at: u32) -> bool
    ensures { result ≡ is_home home at }
{
    match home {
        None => false,
        Some(home) => home == at,
    }
}

fn bad_bit(words: &[u32], link: Link) -> Option<Bad>
    requires { address_of link + 4 * size_of link ≤ 4 * length words.now }
    ensures { result ≡ bad_of words.now link }
{
    match link {
        Link::End | Link::Fstn(_) => None,
        Link::Itd(at) => read_itd(words, at).err(),
        Link::Qh(at) => read_queue_head(words, at).err(),
        Link::Sitd(at) => read_sitd(words, at).err(),
    }
}

fn ending_of(
    words: &[u32],
    base: u32,
    home: Option<u32>,
    begun: bool,
    here: bool,
    earlier: bool,
    link: Link,
) -> Option<Ending>
    requires memory { length words.now ≤ most_memory }
    requires aligned { IsLinkAligned link }
    ensures ending { result ≡ chain_ending base words.now home begun here earlier link }
    ensures inside { IfNone result (address_of link + 4 * size_of link ≤ 4 * length words.now) }
    ensures size { IfNone result (7 ≤ size_of link) }
    ensures fresh { IfNone result (here ≡ false) }
    ensures unseen { IfNone result (earlier ≡ false) }
{
    let at = link.address();
    let address = raised(base, at);
    let size = words_of_link(link);
    if link.is_end() {
        return Some(end_at(home));
    }
    if begun && comes_home(home, at) {
        return Some(Ending::Ring);
    }
    if reaches_outside(words, at, size) {
        return Some(Ending::Outside(address));
    }
    if here {
        return Some(Ending::Loop(address));
    }
    if earlier {
        return Some(Ending::Seen(address));
    }
    if is_fstn_link(link) {
        return Some(Ending::Fstn(address));
    }
    if let Some(bad) = bad_bit(words, link) {
        return Some(Ending::Bad(address, bad));
    }
    if home.is_some() && !is_queue_head_link(link) {
        return Some(Ending::Kind(address));
    }
    None
}

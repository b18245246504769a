ghost use Rattle.std.specs.Prelude.{◌≡◌, ℕ, ◌+◌, ◌*◌, ◌/◌, ◌%◌, ◌≤◌, ◌<◌, ◌⊎◌, ◌++◌, false, length, slice_index, slice_set, OnOk, OnErr, IfNone};
ghost use Rattle.usb_base.specs.Limits.{most_memory};
ghost use Rattle.link_words.specs.Links.{IsQtdAligned};
ghost use Rattle.image_show.specs.Base.{raised};
ghost use Rattle.image_show.specs.Linked.{list_text};
ghost use Rattle.image_show.specs.Marks.{is_marked, IsFresh};
ghost use Rattle.image_codec.specs.Printing.{PrintsOn};
ghost use Rattle.image_show.specs.Shown.{descriptor_text, is_outside, next_in_queue, queue, queue_address, queue_ending, units};

use crate::base::{qtd_from, raised};
use crate::ending::Ending;
use crate::line::Line;
use crate::lines::{line_of_ending, line_of_qtd};
use crate::structures::{reaches_outside, read_descriptor, read_word};
use image_codec::Page;
use link_words::QtdLink;
use usb_base::{Failed, Sink};

/// Prints the queue of a queue head from its first link on. A unit of 32 bytes whose mark is `head`, the queue head's
/// place, holds a descriptor that this queue has shown.
pub fn put_queue<K: Sink>(
    page: &mut Page,
    sink: &mut K,
    words: &[u32],
    marks: &mut [u32],
    base: u32,
    head: u32,
    first: QtdLink,
) -> Result<(), Failed>
    requires memory { length words.now ≤ most_memory }
    requires whole { length marks.old ≡ units words.now }
    requires fresh { IsFresh marks.old head }
    requires based { base % 32 ≡ 0 }
    requires aligned { IsQtdAligned first }
    ensures printed { PrintsOn K.written K.faults sink.old sink.new page.old page.new result (list_text (queue base words.now) first) }
    ensures marks { (u : ℕ) → (slice_index marks.new u ≡ head) ⊎ (slice_index marks.new u ≡ slice_index marks.old u) }
{
    let mut link = first;
    loop {
        let at = address_of(link);
        let here = has_mark(marks, head, at);
        if let Some(ending) = ending_of(words, base, here, link) {
            return page.put(sink, line_of_ending(b"    ", ending).as_slice());
        }
        put_descriptor(page, sink, words, base, at)?;
        marks[(at / 32) as usize] = head;
        link = qtd_from(base, read_word(words, at));
    }
}

fn address_of(link: QtdLink) -> u32
    requires { IsQtdAligned link }
    ensures address { result ≡ queue_address link }
    ensures aligned { queue_address link % 32 ≡ 0 }
{
    match link {
        QtdLink::End => 0,
        QtdLink::To(at) => at,
    }
}

/// Whether the unit of a place has a mark.
pub fn has_mark(marks: &[u32], mark: u32, at: u32) -> bool
    ensures { result ≡ is_marked marks.now mark at }
{
    let unit = (at / 32) as usize;
    unit < marks.len() && marks[unit] == mark
}

fn ending_of(words: &[u32], base: u32, here: bool, link: QtdLink) -> Option<Ending>
    requires { length words.now ≤ most_memory }
    ensures ending { result ≡ queue_ending base words.now here link }
    ensures inside { IfNone result (queue_address link + 32 ≤ 4 * length words.now) }
    ensures fresh { IfNone result (here ≡ false) }
{
    let at = match link {
        QtdLink::End => return Some(Ending::Silent),
        QtdLink::To(at) => at,
    };
    let address = raised(base, at);
    if reaches_outside(words, at, 8) {
        return Some(Ending::Outside(address));
    }
    if here {
        return Some(Ending::Loop(address));
    }
    match read_descriptor(words, at) {
        Ok(_) => None,
        Err(bad) => Some(Ending::Bad(address, bad)),
    }
}

fn put_descriptor<K: Sink>(
    page: &mut Page,
    sink: &mut K,
    words: &[u32],
    base: u32,
    at: u32,
) -> Result<(), Failed>
    requires memory { length words.now ≤ most_memory }
    requires inside { at + 32 ≤ 4 * length words.now }
    ensures { PrintsOn K.written K.faults sink.old sink.new page.old page.new result (descriptor_text base words.now at) }
{
    page.put(sink, line_of_descriptor(words, base, at).as_slice())
}

#[tactic(auto, unfolding(crate::specs::Shown::descriptor_text))]
fn line_of_descriptor(words: &[u32], base: u32, at: u32) -> Line
    requires memory { length words.now ≤ most_memory }
    requires inside { at + 32 ≤ 4 * length words.now }
    ensures { result ≡ descriptor_text base words.now at }
{
    match read_descriptor(words, at) {
        Ok(qtd) => line_of_qtd(raised(base, at), read_word(words, at + 8), &qtd),
        Err(_) => Line::new(),
    }
}

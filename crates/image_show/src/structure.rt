ghost use Rattle.std.specs.Prelude.{◌≡◌, ℕ, ◌+◌, ◌*◌, ◌%◌, ◌≤◌, ◌⊎◌, ◌++◌, true, length, slice_index, OnOk, OnErr};
ghost use Rattle.usb_base.specs.Limits.{most_memory};
ghost use Rattle.link_words.specs.Links.{address_of};
ghost use Rattle.image_show.specs.Base.{raised};
ghost use Rattle.image_show.specs.Marks.{IsFresh};
ghost use Rattle.image_codec.specs.Printing.{PrintsOn};
ghost use Rattle.image_show.specs.Shown.{is_queue_head, itd_at_address, itd_text, qh_text, queue_head, sitd_at_address, sitd_text, size_of, structure_text, units};

use crate::base::{qtd_from, raised};
use crate::line::Line;
use crate::lines::{line_of_itd, line_of_queue_head, line_of_sitd};
use crate::queue::put_queue;
use crate::structures::{read_itd, read_queue_head, read_sitd, read_word};
use image_codec::Page;
use link_words::Link;
use usb_base::{Failed, Sink};

/// Prints the structure that a link leads to, a queue head with its queue.
#[tactic(auto, unfolding(crate::specs::Shown::structure_text))]
pub fn put_structure<K: Sink>(
    page: &mut Page,
    sink: &mut K,
    words: &[u32],
    queues: &mut [u32],
    base: u32,
    link: Link,
) -> Result<(), Failed>
    requires memory { length words.now ≤ most_memory }
    requires whole { length queues.old ≡ units words.now }
    requires based { base % 32 ≡ 0 }
    requires inside { address_of link + 4 * size_of link ≤ 4 * length words.now }
    requires fresh { is_queue_head link ≡ true → IsFresh queues.old (address_of link) }
    ensures printed { PrintsOn K.written K.faults sink.old sink.new page.old page.new result (structure_text base words.now link) }
    ensures queues { (u : ℕ) → (slice_index queues.new u ≡ address_of link) ⊎ (slice_index queues.new u ≡ slice_index queues.old u) }
{
    match link {
        Link::Itd(at) => page.put(sink, text_of_itd(words, base, at).as_slice()),
        Link::Qh(at) => put_queue_head(page, sink, words, queues, base, at),
        Link::Sitd(at) => page.put(sink, text_of_sitd(words, base, at).as_slice()),
        Link::End | Link::Fstn(_) => page.put(sink, b""),
    }
}

fn text_of_itd(words: &[u32], base: u32, at: u32) -> Line
    requires { at + 64 ≤ 4 * length words.now }
    ensures { result ≡ itd_text (raised base at) (itd_at_address words.now at) }
{
    match read_itd(words, at) {
        Ok(itd) => line_of_itd(raised(base, at), &itd),
        Err(_) => Line::new(),
    }
}

fn text_of_sitd(words: &[u32], base: u32, at: u32) -> Line
    requires { at + 28 ≤ 4 * length words.now }
    ensures { result ≡ sitd_text (raised base at) (sitd_at_address words.now at) }
{
    match read_sitd(words, at) {
        Ok(sitd) => line_of_sitd(raised(base, at), &sitd),
        Err(_) => Line::new(),
    }
}

fn put_queue_head<K: Sink>(
    page: &mut Page,
    sink: &mut K,
    words: &[u32],
    queues: &mut [u32],
    base: u32,
    at: u32,
) -> Result<(), Failed>
    requires memory { length words.now ≤ most_memory }
    requires whole { length queues.old ≡ units words.now }
    requires based { base % 32 ≡ 0 }
    requires inside { at + 48 ≤ 4 * length words.now }
    requires fresh { IsFresh queues.old at }
    ensures printed { PrintsOn K.written K.faults sink.old sink.new page.old page.new result (qh_text base words.now at (queue_head words.now at)) }
    ensures queues { (u : ℕ) → (slice_index queues.new u ≡ at) ⊎ (slice_index queues.new u ≡ slice_index queues.old u) }
{
    let head = match read_queue_head(words, at) {
        Ok(head) => head,
        Err(_) => return page.put(sink, b""),
    };
    let line = line_of_queue_head(raised(base, at), read_word(words, at + 24), &head);
    page.put(sink, line.as_slice())?;
    put_queue(
        page,
        sink,
        words,
        queues,
        base,
        at,
        qtd_from(base, read_word(words, at + 16)),
    )
}

ghost use Rattle.std.specs.Prelude.{◌≡◌, ℕ, ◌≤◌, ◌++◌, length};
ghost use Rattle.usb_base.specs.Limits.{most_memory};
ghost use Rattle.image_show.specs.Linked.{ending_line, ending_text, is_silent};
ghost use Rattle.image_show.specs.Text.{hex, refusal_line, why_text};
ghost use Rattle.image_show.specs.Shown.{base_text, direction_text, frame_line, header_line, itd_line, pid_text, qh_line, qtd_line, sitd_line, speed_text};

use crate::ending::Ending;
use crate::image_at::ImageAt;
use crate::line::Line;
use image_codec::{ImageWhy, Refusal};
use itd_sitd::{Itd, Sitd};
use link_words::Bad;
use qh_qtd::{Qh, Qtd};

/// The line of a queue element transfer descriptor, with the word of its token.
pub fn line_of_qtd(at: u32, token: u32, qtd: &Qtd) -> Line
    ensures { result ≡ qtd_line at token qtd.now }
{
    let mut line = Line::new();
    line.put(b"    qtd ");
    line.put_word(at);
    line.put(b" ");
    line.put(pid_name(qtd.token.pid));
    line.put(b" total ");
    line.put_number(qtd.token.total as u32);
    line.put(b" cerr ");
    line.put_number(qtd.token.cerr as u32);
    line.put(b" token ");
    line.put_word(token);
    line.put(b"\n");
    line
}

fn pid_name(pid: u8) -> &'static [u8]
    ensures name { result.now ≡ pid_text pid }
    ensures length { length result.now ≤ 5 }
{
    match pid {
        0 => b"out",
        1 => b"in",
        _ => b"setup",
    }
}

/// The line of a queue head, with the word of its overlay's token.
pub fn line_of_queue_head(at: u32, token: u32, head: &Qh) -> Line
    ensures { result ≡ qh_line at token head.now }
{
    let mut line = Line::new();
    line.put(b"  qh ");
    line.put_word(at);
    line.put(b" ");
    line.put_number(head.addr as u32);
    line.put(b".");
    line.put_number(head.ep as u32);
    line.put(b" ");
    line.put(speed_name(head.eps));
    line.put(b" max ");
    line.put_number(head.max as u32);
    line.put(b" s ");
    line.put_byte(head.smask);
    line.put(b" c ");
    line.put_byte(head.cmask);
    line.put(b" token ");
    line.put_word(token);
    line.put(b"\n");
    line
}

fn speed_name(eps: u8) -> &'static [u8]
    ensures name { result.now ≡ speed_text eps }
    ensures length { length result.now ≤ 4 }
{
    match eps {
        0 => b"full",
        1 => b"low",
        _ => b"high",
    }
}

/// The line of an isochronous transfer descriptor.
pub fn line_of_itd(at: u32, itd: &Itd) -> Line
    ensures { result ≡ itd_line at itd.now }
{
    let mut line = Line::new();
    line.put(b"  itd ");
    line.put_word(at);
    line.put(b" ");
    line.put_number(itd.addr as u32);
    line.put(b".");
    line.put_number(itd.ep as u32);
    line.put(b" ");
    line.put(direction_name(itd.dir_in));
    line.put(b" max ");
    line.put_number(itd.max as u32);
    line.put(b" multi ");
    line.put_number(itd.multi as u32);
    line.put(b"\n");
    line
}

fn direction_name(dir_in: bool) -> &'static [u8]
    ensures name { result.now ≡ direction_text dir_in }
    ensures length { length result.now ≤ 3 }
{
    if dir_in { b"in" } else { b"out" }
}

/// The line of a split-transaction isochronous transfer descriptor.
pub fn line_of_sitd(at: u32, sitd: &Sitd) -> Line
    ensures { result ≡ sitd_line at sitd.now }
{
    let mut line = Line::new();
    line.put(b"  sitd ");
    line.put_word(at);
    line.put(b" ");
    line.put_number(sitd.addr as u32);
    line.put(b".");
    line.put_number(sitd.ep as u32);
    line.put(b" ");
    line.put(direction_name(sitd.dir_in));
    line.put(b" hub ");
    line.put_number(sitd.hub as u32);
    line.put(b" port ");
    line.put_number(sitd.port as u32);
    line.put(b" total ");
    line.put_number(sitd.total as u32);
    line.put(b"\n");
    line
}

/// The line that says how a list ends, empty where it ends without one.
pub fn line_of_ending(indent: &[u8], ending: Ending) -> Line
    requires { length indent.now ≤ 4 }
    ensures { result ≡ ending_line indent.now ending }
{
    let mut line = Line::new();
    if ending_is_silent(ending) {
        return line;
    }
    line.put(indent);
    put_ending(&mut line, ending);
    line.put(b"\n");
    line
}

fn ending_is_silent(ending: Ending) -> bool
    ensures { result ≡ is_silent ending }
{
    match ending {
        Ending::Silent => true,
        _ => false,
    }
}

fn put_ending(line: &mut Line, ending: Ending)
    requires { length line.old ≤ 4 }
    ensures text { line.new ≡ line.old ++ ending_text ending }
    ensures length { length line.new ≤ 64 }
{
    match ending {
        Ending::Silent => line.put(b""),
        Ending::End => line.put(b"end"),
        Ending::Ring => line.put(b"ring"),
        Ending::Outside(at) => put_place(line, b"outside at ", at),
        Ending::Loop(at) => put_place(line, b"loop at ", at),
        Ending::Seen(at) => put_place(line, b"seen ", at),
        Ending::Fstn(at) => put_place(line, b"fstn at ", at),
        Ending::Bad(at, bad) => line.put(text_of_bad(at, bad).as_slice()),
        Ending::Kind(at) => put_place(line, b"kind at ", at),
    }
}

fn put_place(line: &mut Line, what: &[u8], at: u32)
    requires room { length line.old ≤ 4 }
    requires short { length what.now ≤ 16 }
    ensures text { line.new ≡ line.old ++ (what.now ++ hex 8 at) }
    ensures length { length line.new ≤ 28 }
{
    line.put(what);
    line.put_word(at);
}

fn text_of_bad(at: u32, bad: Bad) -> Line
    ensures text { result ≡ ending_text (Ending.Bad at bad) }
    ensures length { length result ≤ 60 }
{
    let mut text = Line::new();
    text.put(b"bad at ");
    text.put_word(at);
    text.put(b" word ");
    text.put_number(bad.word as u32);
    text.put(b" bit ");
    text.put_number(bad.bit as u32);
    text
}

/// The line of a frame, 0 to 1,023.
#[tactic(auto, unfolding(crate::specs::Shown::frame_line))]
pub fn line_of_frame(n: u32) -> Line
    ensures { result ≡ frame_line n }
{
    let mut line = Line::new();
    line.put(b"frame ");
    line.put_number(n);
    line.put(b"\n");
    line
}

/// The first line of the text: the registers, the number of words, and where they begin if not at address 0.
#[tactic(auto, unfolding(crate::specs::Shown::header_line))]
pub fn line_of_header(image: &ImageAt) -> Line
    requires { length image.now.words ≤ most_memory }
    ensures { result ≡ header_line image.now }
{
    let mut line = Line::new();
    line.put(b"frindex ");
    line.put_half(image.frindex);
    line.put(b" list ");
    line.put_word(image.list_base);
    line.put(b" async ");
    line.put_word(image.async_at);
    line.put(b" words ");
    line.put_number(image.words.as_slice().len() as u32);
    line.put(text_of_base(image.base).as_slice());
    line.put(b"\n");
    line
}

fn text_of_base(base: u32) -> Line
    ensures text { result ≡ base_text base }
    ensures length { length result ≤ 14 }
{
    let mut text = Line::new();
    if base == 0 {
        return text;
    }
    text.put(b" from ");
    text.put_word(base);
    text
}

/// The line that says why bytes are no image.
#[tactic(auto, unfolding(crate::specs::Text::refusal_line))]
pub fn line_of_refusal(refusal: Refusal) -> Line
    ensures { result ≡ refusal_line refusal }
{
    let mut line = Line::new();
    line.put(b"offset ");
    line.put_number(refusal.offset);
    line.put(b": ");
    line.put(why_name(refusal.why));
    line.put(b"\n");
    line
}

fn why_name(why: ImageWhy) -> &'static [u8]
    ensures name { result.now ≡ why_text why }
    ensures length { length result.now ≤ 9 }
{
    match why {
        ImageWhy::Magic => b"magic",
        ImageWhy::Version => b"version",
        ImageWhy::Alignment => b"alignment",
        ImageWhy::Length => b"length",
    }
}

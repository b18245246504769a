//! Writing faults, and what a check of a text says.
ghost use Rattle.std.specs.Prelude.{◌≡◌, ◌≤◌, length};
ghost use Rattle.usb_base.specs.Outside.{Prints};
ghost use Rattle.script_text.specs.Faults.{cause_word, fault_line, check_line, is_image};

use report_text::Text;
use script_forms::TextWhy;
use usb_base::{Failed, Sink, write_all};

/// The word of a cause, at most 7 bytes.
fn cause_text(why: TextWhy) -> &'static str
    ensures text { result.now ≡ cause_word why }
    ensures short { length result.now ≤ 7 }
{
    match why {
        TextWhy::Long => "long",
        TextWhy::Byte => "byte",
        TextWhy::Version => "version",
        TextWhy::Word => "word",
        TextWhy::Late => "late",
        TextWhy::Count => "count",
        TextWhy::Number => "number",
        TextWhy::Hex => "hex",
        TextWhy::Range => "range",
        TextWhy::Unknown => "unknown",
        TextWhy::Twice => "twice",
        TextWhy::Limit => "limit",
    }
}

/// The line of a fault.
fn fault_text(line: u32, why: TextWhy) -> Text
    ensures { result ≡ fault_line line why }
{
    let mut text = Text::new();
    text.put("line ");
    text.put_number(line);
    text.put(": ");
    text.put(cause_text(why));
    text.put("\n");
    text
}

/// Writes the line `line <n>: <cause>` of a text that isn't a script. `Failed` comes of the first write that fails, which
/// the sink counts, with a front part of the line written. It takes no memory.
pub fn print_fault<K: Sink>(line: u32, why: TextWhy, sink: &mut K) -> Result<(), Failed>
    ensures { Prints K.written K.faults sink.old sink.new result (fault_line line why) }
{
    write_all(sink, fault_text(line, why).as_bytes())
}

/// Writes what a check of a text says: `script ok`, or the line of its first fault. `Failed` comes of the
/// first write that fails, which the sink counts, with a front part of the line written. It takes no memory.
pub fn print_check<K: Sink>(fault: Option<(u32, TextWhy)>, sink: &mut K) -> Result<(), Failed>
    ensures { Prints K.written K.faults sink.old sink.new result (check_line fault) }
{
    match fault {
        None => write_all(sink, b"script ok\n"),
        Some((line, why)) => print_fault(line, why, sink),
    }
}

/// Whether an input is an image: its first four bytes are `EHCI`.
pub fn is_image(input: &[u8]) -> bool
    ensures { result ≡ is_image input.now }
{
    if input.len() < 4 {
        return false;
    }
    let (front, _) = input.split_at(4);
    front == b"EHCI".as_slice()
}

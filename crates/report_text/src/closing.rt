//! Writing the lines that close a report, at most two for each endpoint that was opened.
ghost use Rattle.std.specs.Prelude.{◌≡◌, ℕ, ◌≤◌, ◌<◌, ◌^◌, ◌++◌, length};
ghost use Rattle.usb_base.specs.Outside.{Prints};
ghost use Rattle.report_text.specs.ReportText.{pending_line, taken_line, acted_line};

use crate::report::{front, print_line};
use crate::text::Text;
use usb_base::{EpName, Failed, Sink, write_all};

/// Writes the line `pending <ep> <k>` of an endpoint of which `k` transfers, requests or descriptors weren't reported.
/// `Failed` comes only where the sink's count of faults rose, with a front part of the line written. It takes no memory.
pub fn print_pending<K: Sink>(name: &EpName, k: u32, sink: &mut K) -> Result<(), Failed>
    ensures { Prints K.written K.faults sink.old sink.new result (pending_line name.now k) }
{
    write_all(sink, pending_text(name, k).as_bytes())
}

/// Writes the line `taken <ep> <bytes>` of a bulk or interrupt OUT endpoint whose device took these bytes, fewer than
/// 2 to the power of 32. `Failed` comes only where the sink's count of faults rose, with a front part of the line
/// written. It takes no memory.
pub fn print_taken<K: Sink>(name: &EpName, bytes: &[u8], sink: &mut K) -> Result<(), Failed>
    requires { length bytes.now < 2 ^ 32 }
    ensures { Prints K.written K.faults sink.old sink.new result (taken_line name.now bytes.now) }
{
    print_line(
        front("taken", name, None, bytes.len() as u32).as_bytes(),
        bytes,
        b"\n",
        sink,
    )
}

/// Writes the line `acted <ep> <k>` of a control endpoint whose device acted on `k` requests. `Failed` comes only where
/// the sink's count of faults rose, with a front part of the line written. It takes no memory.
pub fn print_acted<K: Sink>(name: &EpName, k: u32, sink: &mut K) -> Result<(), Failed>
    ensures { Prints K.written K.faults sink.old sink.new result (acted_line name.now k) }
{
    write_all(sink, acted_text(name, k).as_bytes())
}

/// The line of what is pending.
fn pending_text(name: &EpName, k: u32) -> Text
    ensures { result ≡ pending_line name.now k }
{
    let mut text = Text::new();
    text.put("pending ");
    text.put_endpoint(name);
    text.put(" ");
    text.put_number(k);
    text.put("\n");
    text
}

/// The line of the requests that were acted on.
fn acted_text(name: &EpName, k: u32) -> Text
    ensures { result ≡ acted_line name.now k }
{
    let mut text = Text::new();
    text.put("acted ");
    text.put_endpoint(name);
    text.put(" ");
    text.put_number(k);
    text.put("\n");
    text
}

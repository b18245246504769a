//! Writing a report.
ghost use Rattle.std.specs.Prelude.{◌≡◌, ℕ, ◌≤◌, ◌<◌, ◌+◌, ◌*◌, ◌^◌, ◌++◌, ◌∷◌, List, [], length, codes, Option};
ghost use Rattle.std.specs.Fmt.{decimal};
ghost use Rattle.hex.specs.Hex.{encode_lower};
ghost use Rattle.usb_base.specs.declared.endpoints.EpName.{EpName as Named};
ghost use Rattle.usb_base.specs.Outside.{Prints};
ghost use Rattle.report_text.specs.ReportText.{line_text, ep_word, hex_word, cause_word, passed_word, value_bytes, after_cause, told, report_line, report_text, AreStored};

use crate::text::{Text, cause_text};
use usb_base::{DevAddr, EndCause, EpName, Failed, OfferError, Report, Sink, What, write_all};

/// The digits of some bytes.
fn encode(bytes: &[u8], digits: &mut [u8])
    requires { length digits.old ≡ 2 * length bytes.now }
    ensures { digits.new ≡ encode_lower bytes.now }
{
    let _fits = hex::encode_to_slice(bytes, digits);
}

/// Writes the digits of some bytes, 512 bytes at a time.
fn print_hex<K: Sink>(bytes: &[u8], sink: &mut K) -> Result<(), Failed>
    ensures { Prints K.written K.faults sink.old sink.new result (encode_lower bytes.now) }
{
    let mut buffer = [0; 1024];
    let mut at = 0;
    while at < bytes.len() {
        let (_, rest) = bytes.split_at(at);
        let n = usize::min(512, rest.len());
        let (chunk, _) = rest.split_at(n);
        let digits = &mut buffer[..2 * n];
        encode(chunk, digits);
        write_all(sink, digits)?;
        at += n;
    }
    Ok(())
}

/// Writes the digits of some bytes, or `-` for none.
fn print_digits<K: Sink>(bytes: &[u8], sink: &mut K) -> Result<(), Failed>
    ensures { Prints K.written K.faults sink.old sink.new result (hex_word bytes.now) }
{
    if bytes.is_empty() {
        return write_all(sink, b"-");
    }
    print_hex(bytes, sink)
}

/// What stands in a line before the digits of its bytes.
pub fn front(word: &str, name: &EpName, cause: Option<EndCause>, len: u32) -> Text
    requires { length word.now ≤ 6 }
    ensures { result ≡ word.now ++ (32 ∷ (ep_word name.now ++ (after_cause cause ++ (32 ∷ (decimal len ++ (32 ∷ [])))))) }
{
    let mut text = Text::new();
    text.put(word);
    text.put(" ");
    text.put_endpoint(name);
    put_cause(&mut text, cause);
    text.put(" ");
    text.put_number(len);
    text.put(" ");
    text
}

/// Appends the cause, if there is one.
fn put_cause(text: &mut Text, cause: Option<EndCause>)
    requires { length text.old + 7 ≤ 64 }
    ensures text { text.new ≡ text.old ++ after_cause cause }
    ensures size { length text.new ≤ length text.old + 7 }
{
    match cause {
        None => {}
        Some(cause) => {
            text.put(" ");
            text.put(cause_text(cause));
        }
    }
}

/// What stands behind the bytes of an isochronous line.
fn errors_text(errors: u8) -> Text
    ensures { result ≡ codes " errors " ++ (decimal errors ++ (10 ∷ [])) }
{
    let mut text = Text::new();
    text.put(" errors ");
    text.put_number(errors as u32);
    text.put("\n");
    text
}

/// The line of a refused command, which names no endpoint and has no bytes.
fn refused_text(line: u32, why: OfferError) -> Text
    ensures { (name : Named) (bytes : List ℕ) → result ≡ line_text (told (What.Refused line why) name bytes) }
{
    let mut text = Text::new();
    text.put("line ");
    text.put_number(line);
    text.put(": refused ");
    text.put_why(why);
    text.put("\n");
    text
}

/// The line of an endpoint that was cleared.
fn cleared_text(name: &EpName) -> Text
    ensures { result ≡ codes "clear " ++ (ep_word name.now ++ (10 ∷ [])) }
{
    let mut text = Text::new();
    text.put("clear ");
    text.put_endpoint(name);
    text.put("\n");
    text
}

/// The line of an endpoint whose clear failed.
fn failed_text(name: &EpName, cause: EndCause) -> Text
    ensures { result ≡ codes "clear " ++ (ep_word name.now ++ (codes " failed " ++ (cause_word cause ++ (10 ∷ [])))) }
{
    let mut text = Text::new();
    text.put("clear ");
    text.put_endpoint(name);
    text.put(" failed ");
    text.put(cause_text(cause));
    text.put("\n");
    text
}

/// What stands in the line of a root port before its status and control word.
fn port_text(port: u8) -> Text
    ensures { result ≡ codes "port " ++ (decimal port ++ (32 ∷ [])) }
{
    let mut text = Text::new();
    text.put("port ");
    text.put_number(port as u32);
    text.put(" ");
    text
}

/// The four bytes of a register, the highest first.
fn value_bytes(value: u32) -> [u8; 4]
    ensures { result ≡ value_bytes value }
{
    [
        (value / 16_777_216) as u8,
        (value / 65_536 % 256) as u8,
        (value / 256 % 256) as u8,
        (value % 256) as u8,
    ]
}

/// Whether a command passed.
fn passed_text(passed: bool) -> &'static str
    ensures text { result.now ≡ passed_word passed }
    ensures short { length result.now ≤ 6 }
{
    if passed {
        return "passed";
    }
    "failed"
}

/// What stands in the line of a disk before the digits of its bytes.
fn disk_text(addr: DevAddr, tag: u32, passed: bool, len: u32) -> Text
    ensures { result ≡ codes "disk " ++ (decimal addr ++ (32 ∷ (decimal tag ++ (32 ∷ (passed_word passed ++ (32 ∷ (decimal len ++ (32 ∷ [])))))))) }
{
    let mut text = Text::new();
    text.put("disk ");
    text.put_number(addr.get() as u32);
    text.put(" ");
    text.put_number(tag);
    text.put(" ");
    text.put(passed_text(passed));
    text.put(" ");
    text.put_number(len);
    text.put(" ");
    text
}

/// The line of a disk that was reset.
fn reset_text(addr: DevAddr) -> Text
    ensures { result ≡ codes "reset " ++ (decimal addr ++ (10 ∷ [])) }
{
    let mut text = Text::new();
    text.put("reset ");
    text.put_number(addr.get() as u32);
    text.put("\n");
    text
}

/// Writes a line: its front, the digits of its bytes, and what stands behind them.
pub fn print_line<K: Sink>(
    front: &[u8],
    bytes: &[u8],
    back: &[u8],
    sink: &mut K,
) -> Result<(), Failed>
    ensures { Prints K.written K.faults sink.old sink.new result (front.now ++ (hex_word bytes.now ++ back.now)) }
{
    write_all(sink, front)?;
    print_digits(bytes, sink)?;
    write_all(sink, back)
}

/// Writes a line that tells of an endpoint and its bytes.
fn print_told<K: Sink>(what: What, name: &EpName, bytes: &[u8], sink: &mut K) -> Result<(), Failed>
    requires { length bytes.now < 2 ^ 32 }
    ensures { Prints K.written K.faults sink.old sink.new result (line_text (told what name.now bytes.now)) }
{
    let len = bytes.len() as u32;
    match what {
        What::Done => print_line(
            front("done", name, None, len).as_bytes(),
            bytes,
            b"\n",
            sink,
        ),
        What::Halt(cause) => {
            print_line(
                front("halt", name, Some(cause), len).as_bytes(),
                bytes,
                b"\n",
                sink,
            )
        }
        What::Miss => print_line(
            front("miss", name, None, len).as_bytes(),
            bytes,
            b"\n",
            sink,
        ),
        What::Cancel => {
            print_line(
                front("cancel", name, None, len).as_bytes(),
                bytes,
                b"\n",
                sink,
            )
        }
        What::Iso { errors } => print_line(
            front("iso", name, None, len).as_bytes(),
            bytes,
            errors_text(errors).as_bytes(),
            sink,
        ),
        What::Refused { line, why } => write_all(sink, refused_text(line, why).as_bytes()),
        What::Clear => write_all(sink, cleared_text(name).as_bytes()),
        What::ClearFailed(cause) => write_all(sink, failed_text(name, cause).as_bytes()),
        What::Port { port, value } => print_line(
            port_text(port).as_bytes(),
            &value_bytes(value),
            b"\n",
            sink,
        ),
        What::Disk { tag, passed } => print_line(
            disk_text(name.addr, tag, passed, len).as_bytes(),
            bytes,
            b"\n",
            sink,
        ),
        What::DiskReset => write_all(sink, reset_text(name.addr).as_bytes()),
    }
}

/// Writes one line of the report.
fn print_one<K: Sink>(report: &Report, store: &[u8], sink: &mut K) -> Result<(), Failed>
    requires { report.now.from + report.now.len ≤ length store.now }
    ensures { Prints K.written K.faults sink.old sink.new result (report_line store.now report.now) }
{
    let (_, rest) = store.split_at(report.from as usize);
    let (bytes, _) = rest.split_at(report.len as usize);
    print_told(report.what, &report.name, bytes, sink)
}

/// Writes the report, a line for each of `reports`, whose bytes stand in `store`. `Failed` comes only where the sink's
/// count of faults rose, with a front part of the report written. It takes no memory.
pub fn print_report<K: Sink>(reports: &[Report], store: &[u8], sink: &mut K) -> Result<(), Failed>
    requires { AreStored reports.now (length store.now) }
    ensures { Prints K.written K.faults sink.old sink.new result (report_text reports.now store.now) }
{
    for report in reports {
        print_one(report, store, sink)?;
    }
    Ok(())
}

//! The words of a line.
ghost use Rattle.std.specs.Prelude.{◌≡◌, ◌%◌, ◌++◌, ◌<◌, decimal, length, codes, IfOk};
ghost use Rattle.report_text.specs.ReportText.{ep_word, why_words};
ghost use Rattle.std.specs.List.{join_with_byte};
ghost use Rattle.app_trace_lines.specs.Words.{hex, hex_digit, pid_word, fate_word, step_word, driver_word, part_word};

use drv_table::DriverStep;
use hc_core::HcStep;
use itoa::Buffer;
use report_text::Text;
use usb_base::{DataPart, EpName, Fate, Memory, OfferError, Pid};

/// Appends a piece.
pub fn put(text: &mut Vec<u8>, piece: &str) -> Result<(), Memory>
    ensures { IfOk result (λ _. text.new.items ≡ text.old.items ++ piece.now) }
{
    text.extend_from_slice(piece.as_bytes())?;
    Ok(())
}

/// Appends a number in decimal.
pub fn put_number(text: &mut Vec<u8>, n: u64) -> Result<(), Memory>
    ensures { IfOk result (λ _. text.new.items ≡ text.old.items ++ decimal n) }
{
    let mut buffer = Buffer::new();
    put(text, buffer.format(n))
}

/// Appends the name of an endpoint.
pub fn put_endpoint(text: &mut Vec<u8>, name: &EpName) -> Result<(), Memory>
    ensures { IfOk result (λ _. text.new.items ≡ text.old.items ++ ep_word name.now) }
{
    let mut piece = Text::new();
    piece.put_endpoint(name);
    text.extend_from_slice(piece.as_bytes())?;
    Ok(())
}

/// Appends why a command was refused.
pub fn put_why(text: &mut Vec<u8>, why: OfferError) -> Result<(), Memory>
    ensures { IfOk result (λ _. text.new.items ≡ text.old.items ++ join_with_byte 32 (why_words why)) }
{
    let mut piece = Text::new();
    piece.put_why(why);
    text.extend_from_slice(piece.as_bytes())?;
    Ok(())
}

fn hex_of(n: u32) -> u8
    ensures { result ≡ hex_digit (n % 16) }
{
    let digit = (n & 15) as u8;
    if digit < 10 {
        b'0' + digit
    } else {
        b'a' + (digit - 10)
    }
}

fn word_digits(n: u32) -> [u8; 8]
    ensures { result ≡ hex 8 n }
{
    [
        hex_of(n >> 28),
        hex_of(n >> 24),
        hex_of(n >> 20),
        hex_of(n >> 16),
        hex_of(n >> 12),
        hex_of(n >> 8),
        hex_of(n >> 4),
        hex_of(n),
    ]
}

/// Appends the eight hexadecimal digits of a word.
pub fn put_word(text: &mut Vec<u8>, n: u32) -> Result<(), Memory>
    ensures { IfOk result (λ _. text.new.items ≡ text.old.items ++ hex 8 n) }
{
    let digits = word_digits(n);
    text.extend_from_slice(&digits)?;
    Ok(())
}

/// The word of a packet identifier.
pub fn pid_text(pid: Pid) -> &'static str
    ensures { result.now ≡ pid_word pid }
{
    match pid {
        Pid::Out => "out",
        Pid::In => "in",
        Pid::Sof => "sof",
        Pid::Setup => "setup",
        Pid::Data0 => "data0",
        Pid::Data1 => "data1",
        Pid::Data2 => "data2",
        Pid::Mdata => "mdata",
        Pid::Ack => "ack",
        Pid::Nak => "nak",
        Pid::Stall => "stall",
        Pid::Nyet => "nyet",
        Pid::Err => "err",
        Pid::Split => "split",
        Pid::Ping => "ping",
    }
}

/// What is said behind a packet.
pub fn fate_text(fate: Fate) -> &'static str
    ensures { result.now ≡ fate_word fate }
{
    match fate {
        Fate::Good => "",
        Fate::Lost => " lost",
        Fate::Damaged => " damaged",
    }
}

/// What is said of the part of its data that a start-split carries.
pub fn part_words(part: DataPart) -> &'static str
    ensures { result.now ≡ part_word part }
{
    match part {
        DataPart::All => "",
        DataPart::Begin => "begin ",
        DataPart::Middle => "middle ",
        DataPart::End => "end ",
    }
}

/// The word of an event of the controller.
pub fn step_text(step: HcStep) -> &'static str
    ensures { result.now ≡ step_word step }
{
    match step {
        HcStep::Begin => "begin",
        HcStep::Fetch => "fetch",
        HcStep::Advance => "advance",
        HcStep::Transact => "transact",
        HcStep::WriteBack => "write-back",
        HcStep::Skip => "skip",
        HcStep::End => "end",
        HcStep::Idle => "idle",
    }
}

/// The word of an event of the driver.
pub fn driver_text(step: DriverStep) -> &'static str
    ensures { result.now ≡ driver_word step }
{
    match step {
        DriverStep::Lend => "lend",
        DriverStep::Store => "store",
        DriverStep::Register => "register",
        DriverStep::Harvest => "harvest",
        DriverStep::Release => "release",
        DriverStep::Reset(_) => "reset",
        DriverStep::ResetDisk(_) => "reset disk",
        DriverStep::Rest => "rest",
    }
}

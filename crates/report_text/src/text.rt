//! Short pieces of text on the stack.
ghost use Rattle.std.specs.Prelude.{◌≡◌, ℕ, ◌≤◌, ◌+◌, ◌++◌, List, [], length};
ghost use Rattle.std.specs.Fmt.{decimal};
ghost use Rattle.std.specs.List.{join_with_byte};
ghost use Rattle.report_text.specs.ReportText.{way_word, ep_word, cause_word, why_words};

use arrayvec::ArrayString;
use itoa::Buffer;
use std::marker::Model;
use usb_base::{EndCause, EpName, OfferError, Way};

/// A text of at most 64 bytes, which contracts see as the list of its bytes.
#[derive(Drop)]
pub struct Text {
    text: ArrayString<64>,
}

impl Model for Text {
    ghost Value = { List ℕ };

    ghost view = { λ t. t.text.bytes };
}

impl Text {
    /// The text of no bytes.
    pub fn new() -> Text
        ensures { result ≡ [] }
    {
        Text {
            text: ArrayString::new(),
        }
    }

    /// The bytes of the text.
    pub fn as_bytes(&self) -> &[u8]
        ensures { result.now ≡ self.now }
    {
        self.text.as_str().as_bytes()
    }

    /// Appends a piece of text.
    pub fn put(&mut self, piece: &str)
        requires { length self.old + length piece.now ≤ 64 }
        ensures text { self.new ≡ self.old ++ piece.now }
        ensures size { length self.new ≡ length self.old + length piece.now }
    {
        self.text.push_str(piece);
    }

    /// Appends a number in decimal digits, at most 10.
    pub fn put_number(&mut self, n: u32)
        requires { length self.old + 10 ≤ 64 }
        ensures text { self.new ≡ self.old ++ decimal n }
        ensures size { length self.new ≤ length self.old + 10 }
    {
        let mut buffer = Buffer::new();
        self.text.push_str(buffer.format(n));
    }

    /// Appends the name of an endpoint, at most 25 bytes.
    pub fn put_endpoint(&mut self, name: &EpName)
        requires { length self.old + 25 ≤ 64 }
        ensures text { self.new ≡ self.old ++ ep_word name.now }
        ensures size { length self.new ≤ length self.old + 25 }
    {
        self.put_number(name.addr.get() as u32);
        self.put(".");
        self.put_number(name.num.get() as u32);
        self.put(".");
        self.put(way_text(name.way));
    }

    /// Appends why a command was refused, at most 31 bytes.
    pub fn put_why(&mut self, why: OfferError)
        requires { length self.old + 31 ≤ 64 }
        ensures text { self.new ≡ self.old ++ join_with_byte 32 (why_words why) }
        ensures size { length self.new ≤ length self.old + 31 }
    {
        match why {
            OfferError::Busy => self.put("busy"),
            OfferError::NoEndpoint => self.put("no-endpoint"),
            OfferError::Closed(cause) => {
                self.put("closed ");
                self.put(cause_text(cause));
            }
            OfferError::AlreadyOpen => self.put("already-open"),
            OfferError::TooLong => self.put("too-long"),
            OfferError::NoPlacement => self.put("no-placement"),
            OfferError::NotEnded => self.put("not-ended"),
            OfferError::HubClosed => self.put("hub-closed"),
            OfferError::NoBlocks { need, largest } => {
                self.put("no-blocks ");
                self.put_number(need);
                self.put(" ");
                self.put_number(largest);
            }
        }
    }
}

/// The word of a way.
fn way_text(way: Way) -> &'static str
    ensures text { result.now ≡ way_word way }
    ensures short { length result.now ≤ 3 }
{
    match way {
        Way::In => "in",
        Way::Out => "out",
        Way::Ctl => "ctl",
    }
}

/// The word of a cause.
pub fn cause_text(cause: EndCause) -> &'static str
    ensures text { result.now ≡ cause_word cause }
    ensures short { length result.now ≤ 6 }
{
    match cause {
        EndCause::Stall => "stall",
        EndCause::Error => "error",
        EndCause::Babble => "babble",
        EndCause::Miss => "miss",
        EndCause::Cancel => "cancel",
    }
}

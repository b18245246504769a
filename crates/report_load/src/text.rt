//! The line of a summary, on the stack.
ghost use Rattle.std.specs.Prelude.{◌≡◌, ℕ, ◌≤◌, ◌+◌, ◌++◌, List, [], length};
ghost use Rattle.std.specs.Fmt.{decimal};

use arrayvec::ArrayString;
use itoa::Buffer;
use std::marker::Model;

/// A line of at most 320 bytes, which contracts see as the list of its bytes.
#[derive(Drop)]
pub(crate) struct Line {
    text: ArrayString<320>,
}

impl Model for Line {
    ghost Value = { List ℕ };

    ghost view = { λ l. l.text.bytes };
}

impl Line {
    /// The line of no bytes.
    pub(crate) fn new() -> Line
        ensures { result ≡ [] }
    {
        Line {
            text: ArrayString::new(),
        }
    }

    /// The bytes of the line.
    pub(crate) fn as_bytes(&self) -> &[u8]
        ensures { result.now ≡ self.now }
    {
        self.text.as_str().as_bytes()
    }

    /// Appends a piece of text.
    pub(crate) fn put(&mut self, piece: &str)
        requires { length self.old + length piece.now ≤ 320 }
        ensures text { self.new ≡ self.old ++ piece.now }
        ensures size { length self.new ≡ length self.old + length piece.now }
    {
        self.text.push_str(piece);
    }

    /// Appends a number in decimal digits, at most 40.
    fn put_number(&mut self, count: u128)
        requires { length self.old + 40 ≤ 320 }
        ensures text { self.new ≡ self.old ++ decimal count }
        ensures size { length self.new ≤ length self.old + 40 }
    {
        let mut buffer = Buffer::new();
        self.text.push_str(buffer.format(count));
    }

    /// Appends a piece of text and a number in decimal digits, at most 40.
    pub(crate) fn put_count(&mut self, piece: &str, count: u128)
        requires { length self.old + length piece.now + 40 ≤ 320 }
        ensures text { self.new ≡ self.old ++ (piece.now ++ decimal count) }
        ensures size { length self.new ≤ length self.old + length piece.now + 40 }
    {
        self.put(piece);
        self.put_number(count);
    }
}

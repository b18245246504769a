ghost use Rattle.std.specs.Prelude.{None};

use crate::images::opening_byte;
use app_ends::Status;
use app_machine::ehci_machine;
use std::alloc::{AllocError, Global};
use usb_base::{Failed, Sink, Source};

/// Bytes that are told by their places.
#[derive(Clone, Copy)]
pub enum Pattern {
    /// A short text.
    Text(&'static [u8]),
    /// The image of 262,144 words of a world before its first line.
    Image,
    /// `ehci 1` and then comments, the longest that there are.
    Comments,
    /// `ehci 1` and then one comment.
    Comment,
    /// `ehci 1` and then empty lines.
    Feeds,
}

/// The byte of a pattern at an offset.
fn byte_at(pattern: Pattern, offset: u32) -> u8 {
    match pattern {
        Pattern::Text(text) => *text.get(offset as usize).unwrap_or(&0),
        Pattern::Image => opening_byte(262_144, offset),
        Pattern::Comments if offset >= 7 => match (offset - 7) % 65_536 {
            0 => b'#',
            65_535 => b'\n',
            _ => b'~',
        },
        Pattern::Comment if offset >= 7 => if offset == 7 { b'#' } else { b'~' },
        Pattern::Feeds if offset >= 7 => b'\n',
        Pattern::Comments | Pattern::Comment | Pattern::Feeds => *b"ehci 1\n"
            .get(offset as usize)
            .unwrap_or(&0),
    }
}

/// A source of the first bytes of a pattern.
#[derive(Drop)]
struct Told {
    pattern: Pattern,
    length: u32,
    offset: u32,
}

impl Source for Told {
    ghost left = { λ _. None };

    ghost faults = { λ _. 0 };

    fn read(&mut self, into: &mut [u8]) -> Result<usize, Failed> {
        let left = self.length.saturating_sub(self.offset);
        let n = usize::min(into.len(), left as usize);
        for place in 0..n {
            into[place] = byte_at(self.pattern, self.offset.saturating_add(place as u32));
        }
        self.offset = self.offset.saturating_add(n as u32);
        Ok(n)
    }
}

/// A sink that holds each byte against a pattern.
#[derive(Drop)]
struct Compared {
    pattern: Pattern,
    offset: u32,
    alike: bool,
}

impl Sink for Compared {
    ghost written = { λ _. None };

    ghost faults = { λ _. 0 };

    fn write(&mut self, piece: &[u8]) -> Result<usize, Failed> {
        for byte in piece {
            self.alike = self.alike && *byte == byte_at(self.pattern, self.offset);
            self.offset = self.offset.saturating_add(1);
        }
        Ok(piece.len())
    }
}

/// An input, and what must be written.
#[derive(Clone, Copy)]
pub struct Row {
    pub name: &'static str,
    word: &'static str,
    input: Pattern,
    length: u32,
    status: Status,
    output: Pattern,
    written: usize,
}

/// A script whose world has the most memory.
const SCRIPT: &[u8] = b"ehci 1\nmem 262144\n";

/// What `dump` shows of its image.
const SHOWN: &[u8] =
    b"frindex 0000 list 00000000 async 00001000 words 262144\nasync\n  qh 00001000 0.0 high max 64 s 00 c 00 token 00000040\n  ring\n";

fn short(
    name: &'static str,
    word: &'static str,
    input: Pattern,
    length: u32,
    status: Status,
    output: &'static [u8],
) -> Row {
    Row {
        name,
        word,
        input,
        length,
        status,
        output: Pattern::Text(output),
        written: output.len(),
    }
}

/// The rows.
pub fn rows() -> [Row; 11] {
    [
        short(
            "the longest script, in comments",
            "check",
            Pattern::Comments,
            1_048_576,
            Status::Ok,
            b"script ok\n",
        ),
        short(
            "the longest script, in empty lines",
            "check",
            Pattern::Feeds,
            1_048_576,
            Status::Ok,
            b"script ok\n",
        ),
        short(
            "the longest script, run",
            "run",
            Pattern::Comments,
            1_048_576,
            Status::Ok,
            b"",
        ),
        short(
            "a script a byte longer",
            "run",
            Pattern::Comments,
            1_048_577,
            Status::Refused,
            b"line 0: long\n",
        ),
        short(
            "the longest line",
            "check",
            Pattern::Comment,
            65_542,
            Status::Ok,
            b"script ok\n",
        ),
        short(
            "a line a byte longer",
            "check",
            Pattern::Comment,
            65_543,
            Status::Refused,
            b"line 2: long\n",
        ),
        Row {
            name: "the largest image, written",
            word: "image",
            input: Pattern::Text(SCRIPT),
            length: SCRIPT.len() as u32,
            status: Status::Ok,
            output: Pattern::Image,
            written: 1_048_600,
        },
        short(
            "the largest image, checked",
            "check",
            Pattern::Image,
            1_048_600,
            Status::Ok,
            b"image ok\n",
        ),
        short(
            "the largest image, shown",
            "dump",
            Pattern::Image,
            1_048_600,
            Status::Ok,
            SHOWN,
        ),
        short(
            "the largest image, cut",
            "dump",
            Pattern::Image,
            1_048_599,
            Status::Refused,
            b"offset 1048599: length\n",
        ),
        short(
            "an image a byte longer",
            "dump",
            Pattern::Image,
            1_048_601,
            Status::Refused,
            b"offset 1048600: length\n",
        ),
    ]
}

/// Whether the program ends and writes as the row says. Nothing holds the input or the output but the program.
pub fn of(alloc: Global, row: &Row) -> Result<&'static str, AllocError> {
    let mut words = Vec::new(alloc);
    words.push(String::from_str(alloc, row.word)?)?;
    let mut source = Told {
        pattern: row.input,
        length: row.length,
        offset: 0,
    };
    let mut sink = Compared {
        pattern: row.output,
        offset: 0,
        alike: true,
    };
    let status = ehci_machine(alloc, words.as_slice(), &mut source, &mut sink);
    if status == row.status && sink.alike && sink.offset as usize == row.written {
        Ok("as it must be")
    } else {
        Ok("wrong")
    }
}

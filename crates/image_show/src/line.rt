ghost use Rattle.std.specs.Prelude.{◌≡◌, ℕ, ◌+◌, ◌%◌, ◌≤◌, ◌<◌, ◌∷◌, ◌++◌, List, [], length, decimal};
ghost use Rattle.arrayvec.specs.ArrayVec.{array_vec_len};
ghost use Rattle.image_show.specs.Text.{hex, hex_digit};

use arrayvec::ArrayVec;
use std::marker::Model;

/// One line of text, at most 128 bytes, put together from its pieces.
#[derive(Drop)]
pub struct Line {
    bytes: ArrayVec<u8, 128>,
}

impl Model for Line {
    ghost Value = { List ℕ };

    ghost view = { λ l. l.bytes.items };
}

impl Line {
    /// An empty line.
    pub fn new() -> Line
        ensures { result ≡ [] }
    {
        Line {
            bytes: ArrayVec::new(),
        }
    }

    /// The bytes in their order.
    pub fn as_slice(&self) -> &[u8]
        ensures bytes { result.now ≡ self.now }
        ensures bound { length self.now ≤ 128 }
    {
        self.bytes.as_slice()
    }

    /// Appends a piece of text.
    pub fn put(&mut self, piece: &[u8])
        requires { length self.old + length piece.now ≤ 128 }
        ensures text { self.new ≡ self.old ++ piece.now }
        ensures length { length self.new ≡ length self.old + length piece.now }
    {
        let _added = self.bytes.try_extend_from_slice(piece);
    }

    /// Appends a number in decimal, without leading zeros.
    #[tactic(auto, using(crate::proofs::Decimals::ten_digits))]
    pub fn put_number(&mut self, n: u32)
        requires { length self.old + 10 ≤ 128 }
        ensures text { self.new ≡ self.old ++ decimal n }
        ensures length { length self.new ≤ length self.old + 10 }
    {
        self.put_digits(n);
    }

    /// Appends the eight hexadecimal digits of a word.
    pub fn put_word(&mut self, n: u32)
        requires { length self.old + 8 ≤ 128 }
        ensures text { self.new ≡ self.old ++ hex 8 n }
        ensures length { length self.new ≡ length self.old + 8 }
    {
        self.put(&word_digits(n));
    }

    /// Appends the four hexadecimal digits of half a word.
    pub fn put_half(&mut self, n: u16)
        requires { length self.old + 4 ≤ 128 }
        ensures text { self.new ≡ self.old ++ hex 4 n }
        ensures length { length self.new ≡ length self.old + 4 }
    {
        let n = n as u32;
        self.put(&[hex_of(n >> 12), hex_of(n >> 8), hex_of(n >> 4), hex_of(n)]);
    }

    /// Appends the two hexadecimal digits of a byte.
    pub fn put_byte(&mut self, n: u8)
        requires { length self.old + 2 ≤ 128 }
        ensures text { self.new ≡ self.old ++ hex 2 n }
        ensures length { length self.new ≡ length self.old + 2 }
    {
        self.put(&[hex_of((n as u32) >> 4), hex_of(n as u32)]);
    }

    #[tactic(auto, using(crate::proofs::Decimals::decimal_steps))]
    fn put_digits(&mut self, n: u32)
        requires { length self.old + length (decimal n) ≤ 128 }
        ensures { self.new ≡ self.old ++ decimal n }
    {
        if n < 10 {
            self.put_digit(n as u8);
            return;
        }
        self.put_digits(n / 10);
        self.put_digit((n % 10) as u8);
    }

    fn put_digit(&mut self, digit: u8)
        requires room { length self.old < 128 }
        requires digit { digit < 10 }
        ensures { self.new ≡ self.old ++ (48 + digit) ∷ [] }
    {
        self.bytes.push(b'0' + digit);
    }
}

fn hex_of(n: u32) -> u8
    ensures { result ≡ hex_digit (n % 16) }
{
    let digit = (n & 15) as u8;
    if digit < 10 {
        b'0' + digit
    } else {
        b'a' + (digit - 10)
    }
}

fn word_digits(n: u32) -> [u8; 8]
    ensures { result ≡ hex 8 n }
{
    [
        hex_of(n >> 28),
        hex_of(n >> 24),
        hex_of(n >> 20),
        hex_of(n >> 16),
        hex_of(n >> 12),
        hex_of(n >> 8),
        hex_of(n >> 4),
        hex_of(n),
    ]
}

ghost use Rattle.std.specs.Prelude.{◌≡◌, ◌<◌, ◌≤◌};

use link_words::{bit, field};

/// The token of a queue element transfer descriptor, and of the overlay of a queue head (EHCI 1.0, 3.5.3).
#[derive(Clone, Copy, PartialEq, Eq, Debug)]
pub struct Token {
    /// The next OUT is a PING (high speed), or the last split transaction had an error: bit 0.
    pub ping: bool,
    /// A complete-split is due next: bit 1.
    pub split_state: bool,
    /// A microframe of a split transaction was missed: bit 2.
    pub missed: bool,
    /// A transaction failed: bit 3.
    pub xact_err: bool,
    /// The device sent more than it was asked for: bit 4.
    pub babble: bool,
    /// The host couldn't keep up with the data: bit 5.
    pub buffer_error: bool,
    /// The queue is halted: bit 6.
    pub halted: bool,
    /// The controller is to work on this: bit 7.
    pub active: bool,
    /// PID code: bits 9 to 8. 0 is OUT, 1 IN, 2 SETUP; 3 is reserved.
    pub pid: u8,
    /// How many more errors are allowed, or 0 where they aren't counted: bits 11 to 10.
    pub cerr: u8,
    /// The page that the transfer is in: bits 14 to 12, 0 to 4; 5 to 7 are reserved.
    pub c_page: u8,
    /// Raise an interrupt on completion: bit 15.
    pub ioc: bool,
    /// The bytes that are left: bits 30 to 16, at most 5000h; more is reserved.
    pub total: u16,
    /// The data toggle: bit 31.
    pub toggle: bool,
}

impl Token {
    ghost use Rattle.link_words.specs.Layout.{IsWordInRange, first_bad_bit, ranges_of};
    ghost use Rattle.qh_qtd.specs.Token.{token_rows, token_at, token_word};

    /// The fields of a word, reserved values too.
    #[tactic(auto, unfolding(crate::specs::Token::token_at))]
    pub fn from_word(word: u32) -> Token
        ensures { result ≡ token_at word }
    {
        Token {
            ping: bit(word, 0),
            split_state: bit(word, 1),
            missed: bit(word, 2),
            xact_err: bit(word, 3),
            babble: bit(word, 4),
            buffer_error: bit(word, 5),
            halted: bit(word, 6),
            active: bit(word, 7),
            pid: field(word, 9, 8) as u8,
            cerr: field(word, 11, 10) as u8,
            c_page: field(word, 14, 12) as u8,
            ioc: bit(word, 15),
            total: field(word, 30, 16) as u16,
            toggle: bit(word, 31),
        }
    }

    /// The lowest bit of the first field of a word that has a reserved value.
    #[tactic(auto, unfolding(link_words::specs::Layout::first_bad_bit))]
    pub fn bad_bit(word: u32) -> Option<u8>
        ensures { result ≡ first_bad_bit (ranges_of token_rows) word }
    {
        if field(word, 9, 8) > 2 {
            return Some(8);
        }
        if field(word, 14, 12) > 4 {
            return Some(12);
        }
        if field(word, 30, 16) > 0x5000 {
            return Some(16);
        }
        None
    }

    /// The word of the token. Each field is in its range and has no reserved value.
    #[tactic(auto, using(std::proofs::lemmas::Grind::common_steps, link_words::proofs::Shifts::parts), unfolding(crate::specs::Token::token_word))]
    pub fn to_word(&self) -> u32
        requires { IsWordInRange token_rows self.now }
        ensures { result ≡ token_word self.now }
    {
        self.ping as u32
            | (self.split_state as u32) << 1
            | (self.missed as u32) << 2
            | (self.xact_err as u32) << 3
            | (self.babble as u32) << 4
            | (self.buffer_error as u32) << 5
            | (self.halted as u32) << 6
            | (self.active as u32) << 7
            | (self.pid as u32) << 8
            | (self.cerr as u32) << 10
            | (self.c_page as u32) << 12
            | (self.ioc as u32) << 15
            | (self.total as u32) << 16
            | (self.toggle as u32) << 31
    }
}

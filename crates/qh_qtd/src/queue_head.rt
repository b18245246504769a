ghost use Rattle.std.specs.Prelude.{◌≡◌, ◌<◌, ◌≤◌};

use crate::token::Token;
use link_words::{
    Bad, LinkBits, ShortLink, address, bit, field, first_set, page_bad_bit, page_word,
};

/// A queue head (EHCI 1.0, 3.6).
#[derive(Clone, Copy, PartialEq, Eq, Debug)]
pub struct Qh {
    /// The structure after this one: word 0.
    pub link: LinkBits,
    /// The device's address: bits 6 to 0 of word 1.
    pub addr: u8,
    /// Inactivate on the next transaction: bit 7 of word 1.
    pub inactivate: bool,
    /// The endpoint's number: bits 11 to 8 of word 1.
    pub ep: u8,
    /// The endpoint's speed: bits 13 to 12 of word 1. 0 is full, 1 low, 2 high; 3 is reserved.
    pub eps: u8,
    /// The toggle comes from each descriptor: bit 14 of word 1.
    pub dtc: bool,
    /// The head of the reclamation list: bit 15 of word 1.
    pub head: bool,
    /// The maximum packet size in bytes: bits 26 to 16 of word 1, at most 400h; more is reserved.
    pub max: u16,
    /// A control endpoint that isn't high speed: bit 27 of word 1.
    pub control: bool,
    /// What the count of NAKs begins with: bits 31 to 28 of word 1.
    pub rl: u8,
    /// The microframes of a start-split or a high-speed interrupt, one bit each: bits 7 to 0 of word 2.
    pub smask: u8,
    /// The microframes of the complete-splits, one bit each: bits 15 to 8 of word 2.
    pub cmask: u8,
    /// The address of the hub with the translator: bits 22 to 16 of word 2.
    pub hub: u8,
    /// The port of that hub: bits 29 to 23 of word 2.
    pub port: u8,
    /// The transactions in one microframe: bits 31 to 30 of word 2.
    pub mult: u8,
    /// The byte address of the current descriptor, a multiple of 32: bits 31 to 5 of word 3.
    pub current: u32,
    /// The overlay's next descriptor: word 4.
    pub next: ShortLink,
    /// The overlay's alternate next descriptor: word 5, but bits 4 to 1.
    pub alternate: ShortLink,
    /// How many more NAKs are allowed: bits 4 to 1 of word 5.
    pub nak_cnt: u8,
    /// The overlay's token: word 6.
    pub token: Token,
    /// The overlay's place in its first page, in bytes: bits 11 to 0 of word 7.
    pub offset: u16,
    /// The number of the first page, 20 bits: bits 31 to 12 of word 7.
    pub page0: u32,
    /// The microframes whose complete-split was done, one bit each: bits 7 to 0 of word 8.
    pub c_prog: u8,
    /// The number of the second page: bits 31 to 12 of word 8.
    pub page1: u32,
    /// The frame of the start-split, its low five bits: bits 4 to 0 of word 9.
    pub frame_tag: u8,
    /// The bytes moved in a split transaction: bits 11 to 5 of word 9.
    pub s_bytes: u8,
    /// The number of the third page: bits 31 to 12 of word 9.
    pub page2: u32,
    /// The number of the fourth page: bits 31 to 12 of word 10.
    pub page3: u32,
    /// The number of the fifth page: bits 31 to 12 of word 11.
    pub page4: u32,
}

impl Qh {
    ghost use Rattle.std.specs.Prelude.{IfOk, IfErr};
    ghost use Rattle.link_words.specs.Layout.{IsWordInRange, first_bad_bit, ranges_of, word_of};
    ghost use Rattle.qh_qtd.specs.QueueHead.{qh_read, qh_words, qh_bad, qh_at, IsQhInRange, characteristics_rows, capabilities_rows, current_rows, alternate_rows, offset_rows, progress_rows, frame_rows};

    /// The queue head of twelve words, or their first reserved bit that is set.
    ///
    /// # Errors
    ///
    /// `Bad` exactly where a reserved bit is 1 or a field has a reserved value: the first such bit by word, then by bit,
    /// and for a value its field's lowest bit.
    #[inline(always)]
    pub fn read(w: &[u32; 12]) -> Result<Qh, Bad>
        ensures exact { result ≡ qh_read w.now }

        // What is read is in its range, and is written as the words that were read.
        ensures accepted { IfOk result (λ q. (qh_words q ≡ w.now) × IsQhInRange q) }

        // What was written is read. So nothing else is refused.
        ensures back { (q : Qh) → IsQhInRange q → qh_words q ≡ w.now → result ≡ Ok q }
        ensures refused { IfErr result (λ bad. qh_bad w.now ≡ Some bad) }
    {
        Self::answer_to(w)
    }

    /// The words of the queue head. Each field is in its range and has no reserved value.
    pub fn write(&self) -> [u32; 12]
        requires { IsQhInRange self.now }
        ensures { result ≡ qh_words self.now }
    {
        [
            self.link.to_word(),
            self.characteristics(),
            self.capabilities(),
            self.current,
            self.next.to_word(),
            self.alternate_word(),
            self.token.to_word(),
            self.offset_word(),
            self.progress_word(),
            self.frame_word(),
            page_word(self.page3),
            page_word(self.page4),
        ]
    }

    #[tactic(auto, using(std::proofs::lemmas::Grind::common_steps, link_words::proofs::Shifts::parts))]
    fn characteristics(&self) -> u32
        requires { IsWordInRange characteristics_rows self.now }
        ensures { result ≡ word_of characteristics_rows self.now }
    {
        self.addr as u32
            | (self.inactivate as u32) << 7
            | (self.ep as u32) << 8
            | (self.eps as u32) << 12
            | (self.dtc as u32) << 14
            | (self.head as u32) << 15
            | (self.max as u32) << 16
            | (self.control as u32) << 27
            | (self.rl as u32) << 28
    }

    #[tactic(auto, using(std::proofs::lemmas::Grind::common_steps))]
    fn capabilities(&self) -> u32
        requires { IsWordInRange capabilities_rows self.now }
        ensures { result ≡ word_of capabilities_rows self.now }
    {
        self.smask as u32
            | (self.cmask as u32) << 8
            | (self.hub as u32) << 16
            | (self.port as u32) << 23
            | (self.mult as u32) << 30
    }

    #[tactic(auto, using(std::proofs::lemmas::Grind::common_steps, link_words::proofs::Shifts::parts))]
    fn alternate_word(&self) -> u32
        requires { IsWordInRange alternate_rows self.now }
        ensures { result ≡ word_of alternate_rows self.now }
    {
        self.alternate.t as u32 | (self.nak_cnt as u32) << 1 | self.alternate.address
    }

    fn offset_word(&self) -> u32
        requires { IsWordInRange offset_rows self.now }
        ensures { result ≡ word_of offset_rows self.now }
    {
        self.page0 << 12 | self.offset as u32
    }

    fn progress_word(&self) -> u32
        requires { IsWordInRange progress_rows self.now }
        ensures { result ≡ word_of progress_rows self.now }
    {
        self.page1 << 12 | self.c_prog as u32
    }

    fn frame_word(&self) -> u32
        requires { IsWordInRange frame_rows self.now }
        ensures { result ≡ word_of frame_rows self.now }
    {
        self.frame_tag as u32 | (self.s_bytes as u32) << 5 | self.page2 << 12
    }

    #[tactic(auto, unfolding(link_words::specs::Layout::first_bad_bit))]
    fn characteristics_bad_bit(word: u32) -> Option<u8>
        ensures { result ≡ first_bad_bit (ranges_of characteristics_rows) word }
    {
        if field(word, 13, 12) > 2 {
            return Some(12);
        }
        if field(word, 26, 16) > 0x400 {
            return Some(16);
        }
        None
    }

    #[tactic(auto, unfolding(link_words::specs::Layout::first_bad_bit))]
    fn current_bad_bit(word: u32) -> Option<u8>
        ensures { result ≡ first_bad_bit (ranges_of current_rows) word }
    {
        first_set(word, 4, 0)
    }

    #[tactic(auto, unfolding(link_words::specs::Layout::first_bad_bit))]
    fn progress_bad_bit(word: u32) -> Option<u8>
        ensures { result ≡ first_bad_bit (ranges_of progress_rows) word }
    {
        first_set(word, 11, 8)
    }

    #[tactic(auto, unfolding(crate::specs::QueueHead::qh_read))]
    #[inline(always)]
    fn answer_to(w: &[u32; 12]) -> Result<Qh, Bad>
        ensures { result ≡ qh_read w.now }
    {
        match Self::first_bad(w) {
            Some(bad) => Err(bad),
            None => Ok(Self::fields_of(w)),
        }
    }

    #[tactic(auto, using(crate::proofs::FreeWords::free_words), unfolding(crate::specs::QueueHead::qh_bad))]
    fn first_bad(w: &[u32; 12]) -> Option<Bad>
        ensures { result ≡ qh_bad w.now }
    {
        if let Some(bit) = LinkBits::bad_bit(w[0]) {
            return Some(Bad { word: 0, bit });
        }
        if let Some(bit) = Self::characteristics_bad_bit(w[1]) {
            return Some(Bad { word: 1, bit });
        }
        if let Some(bit) = Self::current_bad_bit(w[3]) {
            return Some(Bad { word: 3, bit });
        }
        if let Some(bit) = ShortLink::bad_bit(w[4]) {
            return Some(Bad { word: 4, bit });
        }
        if let Some(bit) = Token::bad_bit(w[6]) {
            return Some(Bad { word: 6, bit });
        }
        if let Some(bit) = Self::progress_bad_bit(w[8]) {
            return Some(Bad { word: 8, bit });
        }
        if let Some(bit) = page_bad_bit(w[10]) {
            return Some(Bad { word: 10, bit });
        }
        if let Some(bit) = page_bad_bit(w[11]) {
            return Some(Bad { word: 11, bit });
        }
        None
    }

    #[tactic(auto, unfolding(crate::specs::QueueHead::qh_at))]
    fn fields_of(w: &[u32; 12]) -> Qh
        ensures { result ≡ qh_at w.now }
    {
        Qh {
            link: LinkBits::from_word(w[0]),
            addr: field(w[1], 6, 0) as u8,
            inactivate: bit(w[1], 7),
            ep: field(w[1], 11, 8) as u8,
            eps: field(w[1], 13, 12) as u8,
            dtc: bit(w[1], 14),
            head: bit(w[1], 15),
            max: field(w[1], 26, 16) as u16,
            control: bit(w[1], 27),
            rl: field(w[1], 31, 28) as u8,
            smask: field(w[2], 7, 0) as u8,
            cmask: field(w[2], 15, 8) as u8,
            hub: field(w[2], 22, 16) as u8,
            port: field(w[2], 29, 23) as u8,
            mult: field(w[2], 31, 30) as u8,
            current: address(w[3]),
            next: ShortLink::from_word(w[4]),
            alternate: ShortLink::from_word(w[5]),
            nak_cnt: field(w[5], 4, 1) as u8,
            token: Token::from_word(w[6]),
            offset: field(w[7], 11, 0) as u16,
            page0: field(w[7], 31, 12),
            c_prog: field(w[8], 7, 0) as u8,
            page1: field(w[8], 31, 12),
            frame_tag: field(w[9], 4, 0) as u8,
            s_bytes: field(w[9], 11, 5) as u8,
            page2: field(w[9], 31, 12),
            page3: field(w[10], 31, 12),
            page4: field(w[11], 31, 12),
        }
    }
}

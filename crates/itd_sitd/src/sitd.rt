ghost use Rattle.std.specs.Prelude.{◌≡◌, ◌<◌, ◌≤◌};

use link_words::{Bad, LinkBits, ShortLink, bit, field, first_set};

/// A split-transaction isochronous transfer descriptor (EHCI 1.0, 3.4).
#[derive(Clone, Copy, PartialEq, Eq, Debug)]
pub struct Sitd {
    /// The structure after this one: word 0.
    pub link: LinkBits,
    /// The device's address: bits 6 to 0 of word 1.
    pub addr: u8,
    /// The endpoint's number: bits 11 to 8 of word 1.
    pub ep: u8,
    /// The address of the hub with the translator: bits 22 to 16 of word 1.
    pub hub: u8,
    /// The port of that hub: bits 30 to 24 of word 1.
    pub port: u8,
    /// The endpoint sends to the host: bit 31 of word 1.
    pub dir_in: bool,
    /// The microframes of the start-splits, one bit each: bits 7 to 0 of word 2.
    pub smask: u8,
    /// The microframes of the complete-splits, one bit each: bits 15 to 8 of word 2.
    pub cmask: u8,
    /// A complete-split is due next: bit 1 of word 3.
    pub split_state: bool,
    /// A microframe of the split transaction was missed: bit 2 of word 3.
    pub missed: bool,
    /// A transaction failed: bit 3 of word 3.
    pub xact_err: bool,
    /// The device sent more than it was asked for: bit 4 of word 3.
    pub babble: bool,
    /// The host couldn't keep up with the data: bit 5 of word 3.
    pub buffer_error: bool,
    /// The translator answered with an error: bit 6 of word 3.
    pub err: bool,
    /// The controller is to work on this: bit 7 of word 3.
    pub active: bool,
    /// The microframes that were done, one bit each: bits 15 to 8 of word 3.
    pub c_prog: u8,
    /// The bytes that are left: bits 25 to 16 of word 3.
    pub total: u16,
    /// The transfer is in the second page: bit 30 of word 3.
    pub page_select: bool,
    /// Raise an interrupt on completion: bit 31 of word 3.
    pub ioc: bool,
    /// The place in its page, in bytes: bits 11 to 0 of word 4.
    pub offset: u16,
    /// The number of the first page, 20 bits: bits 31 to 12 of word 4.
    pub page0: u32,
    /// How many more start-splits send data: bits 2 to 0 of word 5.
    pub t_count: u8,
    /// Which part the next start-split sends: bits 4 to 3 of word 5. 0 is all, 1 the beginning, 2 the middle, 3 the end.
    pub tp: u8,
    /// The number of the second page: bits 31 to 12 of word 5.
    pub page1: u32,
    /// The descriptor to go back to: word 6.
    pub back: ShortLink,
}

impl Sitd {
    ghost use Rattle.std.specs.Prelude.{IfOk, IfErr};
    ghost use Rattle.link_words.specs.Layout.{IsWordInRange, first_bad_bit, ranges_of, word_of};
    ghost use Rattle.itd_sitd.specs.Sitd.{sitd_read, sitd_words, sitd_bad, sitd_at, IsSitdInRange, endpoint_rows, mask_rows, state_rows, offset_rows, position_rows};

    /// The descriptor of seven words, or their first reserved bit that is set.
    ///
    /// # Errors
    ///
    /// `Bad` exactly where a reserved bit is 1: the first one by word, then by bit.
    pub fn read(w: &[u32; 7]) -> Result<Sitd, Bad>
        ensures exact { result ≡ sitd_read w.now }

        // What is read is in its range, and is written as the words that were read.
        ensures accepted { IfOk result (λ v. (sitd_words v ≡ w.now) × IsSitdInRange v) }

        // What was written is read. So nothing else is refused.
        ensures back { (v : Sitd) → IsSitdInRange v → sitd_words v ≡ w.now → result ≡ Ok v }
        ensures refused { IfErr result (λ bad. sitd_bad w.now ≡ Some bad) }
    {
        Self::answer_to(w)
    }

    /// The words of the descriptor. Each field is in its range.
    pub fn write(&self) -> [u32; 7]
        requires { IsSitdInRange self.now }
        ensures { result ≡ sitd_words self.now }
    {
        [
            self.link.to_word(),
            self.endpoint_word(),
            self.mask_word(),
            self.state_word(),
            self.offset_word(),
            self.position_word(),
            self.back.to_word(),
        ]
    }

    #[tactic(auto, using(std::proofs::lemmas::Grind::common_steps, link_words::proofs::Shifts::parts))]
    fn endpoint_word(&self) -> u32
        requires { IsWordInRange endpoint_rows self.now }
        ensures { result ≡ word_of endpoint_rows self.now }
    {
        self.addr as u32
            | (self.ep as u32) << 8
            | (self.hub as u32) << 16
            | (self.port as u32) << 24
            | (self.dir_in as u32) << 31
    }

    fn mask_word(&self) -> u32
        requires { IsWordInRange mask_rows self.now }
        ensures { result ≡ word_of mask_rows self.now }
    {
        self.smask as u32 | (self.cmask as u32) << 8
    }

    #[tactic(auto, using(std::proofs::lemmas::Grind::common_steps, link_words::proofs::Shifts::parts))]
    fn state_word(&self) -> u32
        requires { IsWordInRange state_rows self.now }
        ensures { result ≡ word_of state_rows self.now }
    {
        (self.split_state as u32) << 1
            | (self.missed as u32) << 2
            | (self.xact_err as u32) << 3
            | (self.babble as u32) << 4
            | (self.buffer_error as u32) << 5
            | (self.err as u32) << 6
            | (self.active as u32) << 7
            | (self.c_prog as u32) << 8
            | (self.total as u32) << 16
            | (self.page_select as u32) << 30
            | (self.ioc as u32) << 31
    }

    fn offset_word(&self) -> u32
        requires { IsWordInRange offset_rows self.now }
        ensures { result ≡ word_of offset_rows self.now }
    {
        self.page0 << 12 | self.offset as u32
    }

    fn position_word(&self) -> u32
        requires { IsWordInRange position_rows self.now }
        ensures { result ≡ word_of position_rows self.now }
    {
        self.t_count as u32 | (self.tp as u32) << 3 | self.page1 << 12
    }

    #[tactic(auto, unfolding(link_words::specs::Layout::first_bad_bit))]
    fn endpoint_bad_bit(word: u32) -> Option<u8>
        ensures { result ≡ first_bad_bit (ranges_of endpoint_rows) word }
    {
        if let Some(bit) = first_set(word, 7, 7) {
            return Some(bit);
        }
        if let Some(bit) = first_set(word, 15, 12) {
            return Some(bit);
        }
        first_set(word, 23, 23)
    }

    #[tactic(auto, unfolding(link_words::specs::Layout::first_bad_bit))]
    fn mask_bad_bit(word: u32) -> Option<u8>
        ensures { result ≡ first_bad_bit (ranges_of mask_rows) word }
    {
        first_set(word, 31, 16)
    }

    #[tactic(auto, unfolding(link_words::specs::Layout::first_bad_bit))]
    fn state_bad_bit(word: u32) -> Option<u8>
        ensures { result ≡ first_bad_bit (ranges_of state_rows) word }
    {
        if let Some(bit) = first_set(word, 0, 0) {
            return Some(bit);
        }
        first_set(word, 29, 26)
    }

    #[tactic(auto, unfolding(link_words::specs::Layout::first_bad_bit))]
    fn position_bad_bit(word: u32) -> Option<u8>
        ensures { result ≡ first_bad_bit (ranges_of position_rows) word }
    {
        first_set(word, 11, 5)
    }

    #[tactic(auto, unfolding(crate::specs::Sitd::sitd_read))]
    fn answer_to(w: &[u32; 7]) -> Result<Sitd, Bad>
        ensures { result ≡ sitd_read w.now }
    {
        match Self::first_bad(w) {
            Some(bad) => Err(bad),
            None => Ok(Self::fields_of(w)),
        }
    }

    #[tactic(auto, using(crate::proofs::SitdLaws::offset_free), unfolding(crate::specs::Sitd::sitd_bad))]
    fn first_bad(w: &[u32; 7]) -> Option<Bad>
        ensures { result ≡ sitd_bad w.now }
    {
        if let Some(bit) = LinkBits::bad_bit(w[0]) {
            return Some(Bad { word: 0, bit });
        }
        if let Some(bit) = Self::endpoint_bad_bit(w[1]) {
            return Some(Bad { word: 1, bit });
        }
        if let Some(bit) = Self::mask_bad_bit(w[2]) {
            return Some(Bad { word: 2, bit });
        }
        if let Some(bit) = Self::state_bad_bit(w[3]) {
            return Some(Bad { word: 3, bit });
        }
        if let Some(bit) = Self::position_bad_bit(w[5]) {
            return Some(Bad { word: 5, bit });
        }
        if let Some(bit) = ShortLink::bad_bit(w[6]) {
            return Some(Bad { word: 6, bit });
        }
        None
    }

    fn fields_of(w: &[u32; 7]) -> Sitd
        ensures { result ≡ sitd_at w.now }
    {
        Sitd {
            link: LinkBits::from_word(w[0]),
            addr: field(w[1], 6, 0) as u8,
            ep: field(w[1], 11, 8) as u8,
            hub: field(w[1], 22, 16) as u8,
            port: field(w[1], 30, 24) as u8,
            dir_in: bit(w[1], 31),
            smask: field(w[2], 7, 0) as u8,
            cmask: field(w[2], 15, 8) as u8,
            split_state: bit(w[3], 1),
            missed: bit(w[3], 2),
            xact_err: bit(w[3], 3),
            babble: bit(w[3], 4),
            buffer_error: bit(w[3], 5),
            err: bit(w[3], 6),
            active: bit(w[3], 7),
            c_prog: field(w[3], 15, 8) as u8,
            total: field(w[3], 25, 16) as u16,
            page_select: bit(w[3], 30),
            ioc: bit(w[3], 31),
            offset: field(w[4], 11, 0) as u16,
            page0: field(w[4], 31, 12),
            t_count: field(w[5], 2, 0) as u8,
            tp: field(w[5], 4, 3) as u8,
            page1: field(w[5], 31, 12),
            back: ShortLink::from_word(w[6]),
        }
    }
}

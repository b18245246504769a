ghost use Rattle.std.specs.Prelude.{◌≡◌, ◌<◌, ◌≤◌};

use crate::slot::ItdSlot;
use link_words::{Bad, LinkBits, bit, field, first_set, page_bad_bit, page_word};

/// An isochronous transfer descriptor (EHCI 1.0, 3.3).
#[derive(Clone, Copy, PartialEq, Eq, Debug)]
pub struct Itd {
    /// The structure after this one: word 0.
    pub link: LinkBits,
    /// The eight microframes of the frame: words 1 to 8.
    pub slots: [ItdSlot; 8],
    /// The device's address: bits 6 to 0 of word 9.
    pub addr: u8,
    /// The endpoint's number: bits 11 to 8 of word 9.
    pub ep: u8,
    /// The number of the first page, 20 bits: bits 31 to 12 of word 9.
    pub page0: u32,
    /// The maximum packet size in bytes: bits 10 to 0 of word 10, at most 400h; more is reserved.
    pub max: u16,
    /// The endpoint sends to the host: bit 11 of word 10.
    pub dir_in: bool,
    /// The number of the second page: bits 31 to 12 of word 10.
    pub page1: u32,
    /// The transactions in one microframe: bits 1 to 0 of word 11, 1 to 3; 0 is reserved.
    pub multi: u8,
    /// The number of the third page: bits 31 to 12 of word 11.
    pub page2: u32,
    /// The number of the fourth page: bits 31 to 12 of word 12.
    pub page3: u32,
    /// The number of the fifth page: bits 31 to 12 of word 13.
    pub page4: u32,
    /// The number of the sixth page: bits 31 to 12 of word 14.
    pub page5: u32,
    /// The number of the seventh page: bits 31 to 12 of word 15.
    pub page6: u32,
}

impl Itd {
    ghost use Rattle.std.specs.Prelude.{IfOk, IfErr};
    ghost use Rattle.link_words.specs.Layout.{IsWordInRange, first_bad_bit, ranges_of, word_of};
    ghost use Rattle.itd_sitd.specs.Itd.{itd_read, itd_words, itd_bad, itd_at, IsItdInRange, endpoint_rows, packet_rows, multi_rows};

    /// The descriptor of sixteen words, or their first reserved bit that is set.
    ///
    /// # Errors
    ///
    /// `Bad` exactly where a reserved bit is 1 or a field has a reserved value: the first such bit by word, then by bit,
    /// and for a value its field's lowest bit.
    pub fn read(w: &[u32; 16]) -> Result<Itd, Bad>
        ensures exact { result ≡ itd_read w.now }

        // What is read is in its range, and is written as the words that were read.
        ensures accepted { IfOk result (λ v. (itd_words v ≡ w.now) × IsItdInRange v) }

        // What was written is read. So nothing else is refused.
        ensures back { (v : Itd) → IsItdInRange v → itd_words v ≡ w.now → result ≡ Ok v }
        ensures refused { IfErr result (λ bad. itd_bad w.now ≡ Some bad) }
    {
        Self::answer_to(w)
    }

    /// The words of the descriptor. Each field is in its range and has no reserved value.
    pub fn write(&self) -> [u32; 16]
        requires { IsItdInRange self.now }
        ensures { result ≡ itd_words self.now }
    {
        [
            self.link.to_word(),
            self.slots[0].to_word(),
            self.slots[1].to_word(),
            self.slots[2].to_word(),
            self.slots[3].to_word(),
            self.slots[4].to_word(),
            self.slots[5].to_word(),
            self.slots[6].to_word(),
            self.slots[7].to_word(),
            self.endpoint_word(),
            self.packet_word(),
            self.multi_word(),
            page_word(self.page3),
            page_word(self.page4),
            page_word(self.page5),
            page_word(self.page6),
        ]
    }

    fn endpoint_word(&self) -> u32
        requires { IsWordInRange endpoint_rows self.now }
        ensures { result ≡ word_of endpoint_rows self.now }
    {
        self.addr as u32 | (self.ep as u32) << 8 | self.page0 << 12
    }

    #[tactic(auto, using(std::proofs::lemmas::Grind::common_steps, link_words::proofs::Shifts::parts))]
    fn packet_word(&self) -> u32
        requires { IsWordInRange packet_rows self.now }
        ensures { result ≡ word_of packet_rows self.now }
    {
        self.max as u32 | (self.dir_in as u32) << 11 | self.page1 << 12
    }

    fn multi_word(&self) -> u32
        requires { IsWordInRange multi_rows self.now }
        ensures { result ≡ word_of multi_rows self.now }
    {
        self.multi as u32 | self.page2 << 12
    }

    #[tactic(auto, unfolding(link_words::specs::Layout::first_bad_bit))]
    fn endpoint_bad_bit(word: u32) -> Option<u8>
        ensures { result ≡ first_bad_bit (ranges_of endpoint_rows) word }
    {
        first_set(word, 7, 7)
    }

    #[tactic(auto, unfolding(link_words::specs::Layout::first_bad_bit))]
    fn packet_bad_bit(word: u32) -> Option<u8>
        ensures { result ≡ first_bad_bit (ranges_of packet_rows) word }
    {
        if field(word, 10, 0) > 0x400 {
            return Some(0);
        }
        None
    }

    #[tactic(auto, unfolding(link_words::specs::Layout::first_bad_bit))]
    fn multi_bad_bit(word: u32) -> Option<u8>
        ensures { result ≡ first_bad_bit (ranges_of multi_rows) word }
    {
        if field(word, 1, 0) == 0 {
            return Some(0);
        }
        first_set(word, 11, 2)
    }

    #[tactic(auto, unfolding(crate::specs::Itd::itd_read))]
    fn answer_to(w: &[u32; 16]) -> Result<Itd, Bad>
        ensures { result ≡ itd_read w.now }
    {
        match Self::first_bad(w) {
            Some(bad) => Err(bad),
            None => Ok(Self::fields_of(w)),
        }
    }

    #[tactic(auto, unfolding(crate::specs::Itd::itd_bad))]
    fn first_bad(w: &[u32; 16]) -> Option<Bad>
        ensures { result ≡ itd_bad w.now }
    {
        if let Some(bit) = LinkBits::bad_bit(w[0]) {
            return Some(Bad { word: 0, bit });
        }
        if let Some(bit) = ItdSlot::bad_bit(w[1]) {
            return Some(Bad { word: 1, bit });
        }
        if let Some(bit) = ItdSlot::bad_bit(w[2]) {
            return Some(Bad { word: 2, bit });
        }
        if let Some(bit) = ItdSlot::bad_bit(w[3]) {
            return Some(Bad { word: 3, bit });
        }
        if let Some(bit) = ItdSlot::bad_bit(w[4]) {
            return Some(Bad { word: 4, bit });
        }
        if let Some(bit) = ItdSlot::bad_bit(w[5]) {
            return Some(Bad { word: 5, bit });
        }
        if let Some(bit) = ItdSlot::bad_bit(w[6]) {
            return Some(Bad { word: 6, bit });
        }
        if let Some(bit) = ItdSlot::bad_bit(w[7]) {
            return Some(Bad { word: 7, bit });
        }
        if let Some(bit) = ItdSlot::bad_bit(w[8]) {
            return Some(Bad { word: 8, bit });
        }
        if let Some(bit) = Self::endpoint_bad_bit(w[9]) {
            return Some(Bad { word: 9, bit });
        }
        if let Some(bit) = Self::packet_bad_bit(w[10]) {
            return Some(Bad { word: 10, bit });
        }
        if let Some(bit) = Self::multi_bad_bit(w[11]) {
            return Some(Bad { word: 11, bit });
        }
        if let Some(bit) = page_bad_bit(w[12]) {
            return Some(Bad { word: 12, bit });
        }
        if let Some(bit) = page_bad_bit(w[13]) {
            return Some(Bad { word: 13, bit });
        }
        if let Some(bit) = page_bad_bit(w[14]) {
            return Some(Bad { word: 14, bit });
        }
        if let Some(bit) = page_bad_bit(w[15]) {
            return Some(Bad { word: 15, bit });
        }
        None
    }

    #[tactic(auto, unfolding(crate::specs::Itd::itd_at))]
    fn fields_of(w: &[u32; 16]) -> Itd
        ensures { result ≡ itd_at w.now }
    {
        Itd {
            link: LinkBits::from_word(w[0]),
            slots: Self::slots_of(w),
            addr: field(w[9], 6, 0) as u8,
            ep: field(w[9], 11, 8) as u8,
            page0: field(w[9], 31, 12),
            max: field(w[10], 10, 0) as u16,
            dir_in: bit(w[10], 11),
            page1: field(w[10], 31, 12),
            multi: field(w[11], 1, 0) as u8,
            page2: field(w[11], 31, 12),
            page3: field(w[12], 31, 12),
            page4: field(w[13], 31, 12),
            page5: field(w[14], 31, 12),
            page6: field(w[15], 31, 12),
        }
    }

    #[tactic(auto, unfolding(crate::specs::Itd::itd_at))]
    fn slots_of(w: &[u32; 16]) -> [ItdSlot; 8]
        ensures { result ≡ (itd_at w.now).slots }
    {
        [
            ItdSlot::from_word(w[1]),
            ItdSlot::from_word(w[2]),
            ItdSlot::from_word(w[3]),
            ItdSlot::from_word(w[4]),
            ItdSlot::from_word(w[5]),
            ItdSlot::from_word(w[6]),
            ItdSlot::from_word(w[7]),
            ItdSlot::from_word(w[8]),
        ]
    }
}

ghost use Rattle.std.specs.Prelude.{◌≡◌, ◌<◌, ◌≤◌};

use crate::token::Token;
use link_words::{Bad, ShortLink, field, page_bad_bit, page_word};

/// A queue element transfer descriptor (EHCI 1.0, 3.5).
#[derive(Clone, Copy, PartialEq, Eq, Debug)]
pub struct Qtd {
    /// The descriptor after this one: word 0.
    pub next: ShortLink,
    /// The descriptor after this one where it ends short: word 1.
    pub alternate: ShortLink,
    /// What is to be done and how far it is: word 2.
    pub token: Token,
    /// The place in the first page, in bytes: bits 11 to 0 of word 3.
    pub offset: u16,
    /// The number of the first page, 20 bits: bits 31 to 12 of word 3.
    pub page0: u32,
    /// The number of the second page: bits 31 to 12 of word 4.
    pub page1: u32,
    /// The number of the third page: bits 31 to 12 of word 5.
    pub page2: u32,
    /// The number of the fourth page: bits 31 to 12 of word 6.
    pub page3: u32,
    /// The number of the fifth page: bits 31 to 12 of word 7.
    pub page4: u32,
}

impl Qtd {
    ghost use Rattle.std.specs.Prelude.{IfOk, IfErr};
    ghost use Rattle.qh_qtd.specs.Qtd.{qtd_read, qtd_words, qtd_bad, qtd_at, buffer_rows, IsQtdInRange};
    ghost use Rattle.link_words.specs.Layout.{IsWordInRange, word_of};

    /// The descriptor of eight words, or their first reserved bit that is set.
    ///
    /// # Errors
    ///
    /// `Bad` exactly where a reserved bit is 1 or a field has a reserved value: the first such bit by word, then by bit,
    /// and for a value its field's lowest bit.
    pub fn read(w: &[u32; 8]) -> Result<Qtd, Bad>
        ensures exact { result ≡ qtd_read w.now }

        // What is read is in its range, and is written as the words that were read.
        ensures accepted { IfOk result (λ q. (qtd_words q ≡ w.now) × IsQtdInRange q) }

        // What was written is read. So nothing else is refused.
        ensures back { (q : Qtd) → IsQtdInRange q → qtd_words q ≡ w.now → result ≡ Ok q }
        ensures refused { IfErr result (λ bad. qtd_bad w.now ≡ Some bad) }
    {
        Self::answer_to(w)
    }

    /// The words of the descriptor. Each field is in its range and has no reserved value.
    pub fn write(&self) -> [u32; 8]
        requires { IsQtdInRange self.now }
        ensures { result ≡ qtd_words self.now }
    {
        [
            self.next.to_word(),
            self.alternate.to_word(),
            self.token.to_word(),
            self.buffer_word(),
            page_word(self.page1),
            page_word(self.page2),
            page_word(self.page3),
            page_word(self.page4),
        ]
    }

    fn buffer_word(&self) -> u32
        requires { IsWordInRange buffer_rows self.now }
        ensures { result ≡ word_of buffer_rows self.now }
    {
        self.page0 << 12 | self.offset as u32
    }

    #[tactic(auto, unfolding(crate::specs::Qtd::qtd_read))]
    fn answer_to(w: &[u32; 8]) -> Result<Qtd, Bad>
        ensures { result ≡ qtd_read w.now }
    {
        match Self::first_bad(w) {
            Some(bad) => Err(bad),
            None => Ok(Self::fields_of(w)),
        }
    }

    #[tactic(auto, using(crate::proofs::FreeWords::free_words), unfolding(crate::specs::Qtd::qtd_bad))]
    fn first_bad(w: &[u32; 8]) -> Option<Bad>
        ensures { result ≡ qtd_bad w.now }
    {
        if let Some(bit) = ShortLink::bad_bit(w[0]) {
            return Some(Bad { word: 0, bit });
        }
        if let Some(bit) = ShortLink::bad_bit(w[1]) {
            return Some(Bad { word: 1, bit });
        }
        if let Some(bit) = Token::bad_bit(w[2]) {
            return Some(Bad { word: 2, bit });
        }
        if let Some(bit) = page_bad_bit(w[4]) {
            return Some(Bad { word: 4, bit });
        }
        if let Some(bit) = page_bad_bit(w[5]) {
            return Some(Bad { word: 5, bit });
        }
        if let Some(bit) = page_bad_bit(w[6]) {
            return Some(Bad { word: 6, bit });
        }
        if let Some(bit) = page_bad_bit(w[7]) {
            return Some(Bad { word: 7, bit });
        }
        None
    }

    #[tactic(auto, unfolding(crate::specs::Qtd::qtd_at))]
    fn fields_of(w: &[u32; 8]) -> Qtd
        ensures { result ≡ qtd_at w.now }
    {
        Qtd {
            next: ShortLink::from_word(w[0]),
            alternate: ShortLink::from_word(w[1]),
            token: Token::from_word(w[2]),
            offset: field(w[3], 11, 0) as u16,
            page0: field(w[3], 31, 12),
            page1: field(w[4], 31, 12),
            page2: field(w[5], 31, 12),
            page3: field(w[6], 31, 12),
            page4: field(w[7], 31, 12),
        }
    }
}

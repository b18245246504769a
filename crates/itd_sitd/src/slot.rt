ghost use Rattle.std.specs.Prelude.{◌≡◌, ◌<◌, ◌≤◌};

use link_words::{bit, field};

/// One microframe of an isochronous transfer descriptor (EHCI 1.0, 3.3.2).
#[derive(Clone, Copy, PartialEq, Eq, Debug)]
pub struct ItdSlot {
    /// The place in its page, in bytes: bits 11 to 0.
    pub offset: u16,
    /// Which of the seven pages it begins in: bits 14 to 12, 0 to 6; 7 is reserved.
    pub pg: u8,
    /// Raise an interrupt on completion: bit 15.
    pub ioc: bool,
    /// The bytes to be moved, and then those that were: bits 27 to 16.
    pub length: u16,
    /// A transaction failed: bit 28.
    pub xact_err: bool,
    /// The device sent more than it was asked for: bit 29.
    pub babble: bool,
    /// The host couldn't keep up with the data: bit 30.
    pub buffer_error: bool,
    /// The controller is to work on this: bit 31.
    pub active: bool,
}

impl ItdSlot {
    ghost use Rattle.link_words.specs.Layout.{IsWordInRange, first_bad_bit, ranges_of};
    ghost use Rattle.itd_sitd.specs.Slot.{slot_rows, slot_at, slot_word};

    /// The fields of a word, reserved values too.
    #[tactic(auto, unfolding(crate::specs::Slot::slot_at))]
    pub fn from_word(word: u32) -> ItdSlot
        ensures { result ≡ slot_at word }
    {
        ItdSlot {
            offset: field(word, 11, 0) as u16,
            pg: field(word, 14, 12) as u8,
            ioc: bit(word, 15),
            length: field(word, 27, 16) as u16,
            xact_err: bit(word, 28),
            babble: bit(word, 29),
            buffer_error: bit(word, 30),
            active: bit(word, 31),
        }
    }

    /// The lowest bit of the page of a word, where it is reserved.
    #[tactic(auto, unfolding(link_words::specs::Layout::first_bad_bit))]
    pub fn bad_bit(word: u32) -> Option<u8>
        ensures { result ≡ first_bad_bit (ranges_of slot_rows) word }
    {
        if field(word, 14, 12) > 6 {
            return Some(12);
        }
        None
    }

    /// The word of the microframe. Each field is in its range, and the page isn't reserved.
    #[tactic(auto, using(std::proofs::lemmas::Grind::common_steps, link_words::proofs::Shifts::parts), unfolding(crate::specs::Slot::slot_word))]
    pub fn to_word(&self) -> u32
        requires { IsWordInRange slot_rows self.now }
        ensures { result ≡ slot_word self.now }
    {
        self.offset as u32
            | (self.pg as u32) << 12
            | (self.ioc as u32) << 15
            | (self.length as u32) << 16
            | (self.xact_err as u32) << 28
            | (self.babble as u32) << 29
            | (self.buffer_error as u32) << 30
            | (self.active as u32) << 31
    }
}

ghost use Rattle.std.specs.Prelude.{◌≡◌, None, Some, IfSome, option_map, length};
ghost use Rattle.link_words.specs.Layout.{first_bad_bit, ranges_of};
ghost use Rattle.itd_sitd.specs.Itd.{IsItdInRange, itd_words};
ghost use Rattle.itd_sitd.specs.Slot.{slot_rows};
ghost use Rattle.hc_iso.specs.declared.held.HeldItd.{HeldItd as CopiedItd};
ghost use Rattle.hc_iso.specs.declared.held.HeldSitd.{HeldSitd as CopiedSitd};
ghost use Rattle.hc_iso.specs.Itd.{IsItdHeld};
ghost use Rattle.hc_iso.specs.Sitd.{IsSitdHeld};
ghost use Rattle.periodic_walk.specs.Walk.{IsInHand};
ghost use Rattle.periodic_walk.specs.HandParts.{itd_parts, is_counted, itd_of, itd_if, itd_from, sitd_parts, sitd_from, hand_parts, hand_from, in_hand_from};

use crate::state::{Hand, HeldQueue};
use async_walk::HeldParts;
use hc_iso::{HeldItd, HeldSitd, IsoEnd, SplitOutcome};
use itd_sitd::{Itd, ItdSlot, Sitd};

/// The copy of an interrupt queue head in hand, by its words.
#[derive(Clone, Copy, Debug, PartialEq, Eq)]
pub struct QueueParts {
    /// The copy.
    pub copy: HeldParts,
    /// How many transactions were made in this visit.
    pub made: u8,
}

/// The copy of an iTD in hand, by its words.
#[derive(Clone, Copy, Debug, PartialEq, Eq)]
pub struct ItdParts {
    /// Where the iTD stands: a byte address.
    pub at: u32,
    /// The words of the descriptor, as it was read.
    pub words: [u32; 16],
    /// The microframe.
    pub number: u8,
    /// The word of the microframe, with the errors that were recorded.
    pub slot: u32,
    /// How many transactions were made.
    pub made: u8,
    /// How many packets are to come, at most.
    pub rest: u8,
    /// How many bytes were moved.
    pub moved: u16,
    /// How it ended, once no transaction is to come.
    pub ended: Option<IsoEnd>,
}

/// The copy of a siTD in hand, by its words.
#[derive(Clone, Copy, Debug, PartialEq, Eq)]
pub struct SitdParts {
    /// Where the siTD stands: a byte address.
    pub at: u32,
    /// The words of the copy.
    pub words: [u32; 7],
    /// What its transaction came to, once it was made.
    pub settled: Option<SplitOutcome>,
}

/// The copy in hand, by its words.
#[derive(Clone, Copy, Debug, PartialEq, Eq)]
pub enum HandParts {
    /// Of the queue head of an interrupt endpoint.
    Queue(QueueParts),
    /// Of an isochronous transfer descriptor.
    Itd(ItdParts),
    /// Of a split-transaction isochronous transfer descriptor.
    Sitd(SitdParts),
}

/// Whether the numbers of a copy of an iTD are in their ranges.
fn is_counted(held: &HeldItd) -> bool
    ensures { result ≡ is_counted held.now }
{
    held.at % 32 == 0
        && held.number < 8
        && held.made as u32 + held.rest as u32 <= 3
        && (held.ended.is_some() || held.rest >= 1)
        && held.moved as u32 <= 1024 * held.made as u32
        && held.moved <= held.slot.length
}

impl ItdParts {
    /// The parts of a copy.
    pub fn of(held: &HeldItd) -> ItdParts
        requires { IsItdHeld held.now }
        ensures { result ≡ itd_parts held.now }
    {
        ItdParts {
            at: held.at,
            words: held.itd.write(),
            number: held.number,
            slot: held.slot.to_word(),
            made: held.made,
            rest: held.rest,
            moved: held.moved,
            ended: held.ended,
        }
    }

    /// The copy of this descriptor with the other parts, where its numbers are in their ranges.
    #[tactic(auto, using(crate::proofs::Hands::itd_whole))]
    fn of_itd(&self, itd: Itd) -> Option<HeldItd>
        requires range { IsItdInRange itd }
        requires words { itd_words itd ≡ self.now.words }
        requires slot { first_bad_bit (ranges_of slot_rows) self.now.slot ≡ None }
        ensures exact { result ≡ itd_if (is_counted (itd_of self.now itd)) (itd_of self.now itd) }
        ensures whole { IfSome result (λ h. IsItdHeld h × (itd_parts h ≡ self.now)) }
    {
        let held = HeldItd {
            at: self.at,
            itd,
            number: self.number,
            slot: ItdSlot::from_word(self.slot),
            made: self.made,
            rest: self.rest,
            moved: self.moved,
            ended: self.ended,
        };
        if is_counted(&held) { Some(held) } else { None }
    }

    fn read_held(&self) -> Option<HeldItd>
        ensures exact { result ≡ itd_from self.now }
        ensures whole { IfSome result (λ h. IsItdHeld h × (itd_parts h ≡ self.now)) }
    {
        match ItdSlot::bad_bit(self.slot) {
            Some(_) => None,
            None => match Itd::read(&self.words) {
                Ok(itd) => self.of_itd(itd),
                Err(_) => None,
            },
        }
    }

    /// The copy that has these parts; None where none has.
    #[tactic(auto, using(crate::proofs::Hands::itd_back))]
    pub fn held(&self) -> Option<HeldItd>
        ensures exact { result ≡ itd_from self.now }

        // A copy has the parts that it is made of, and what has parts is made of them.
        ensures whole { IfSome result (λ h. IsItdHeld h × (itd_parts h ≡ self.now)) }
        ensures back { (h : CopiedItd) → IsItdHeld h → itd_parts h ≡ self.now → result ≡ Some h }
    {
        self.read_held()
    }
}

impl SitdParts {
    /// The parts of a copy.
    pub fn of(held: &HeldSitd) -> SitdParts
        requires { IsSitdHeld held.now }
        ensures { result ≡ sitd_parts held.now }
    {
        SitdParts {
            at: held.at,
            words: held.sitd.write(),
            settled: held.settled,
        }
    }

    /// The copy that has these parts; None where none has.
    #[tactic(auto, using(crate::proofs::Hands::sitd_back))]
    pub fn held(&self) -> Option<HeldSitd>
        ensures exact { result ≡ sitd_from self.now }

        // A copy has the parts that it is made of, and what has parts is made of them.
        ensures whole { IfSome result (λ h. IsSitdHeld h × (sitd_parts h ≡ self.now)) }
        ensures back { (h : CopiedSitd) → IsSitdHeld h → sitd_parts h ≡ self.now → result ≡ Some h }
    {
        if self.at % 32 != 0 {
            return None;
        }
        match Sitd::read(&self.words) {
            Ok(sitd) => Some(HeldSitd {
                at: self.at,
                sitd,
                settled: self.settled,
            }),
            Err(_) => None,
        }
    }
}

impl HandParts {
    fn of(got: &[u8], hand: &Hand) -> HandParts
        requires { IsInHand got.now hand.now }
        ensures { result ≡ hand_parts hand.now }
    {
        match hand {
            Hand::Queue(held) => HandParts::Queue(QueueParts {
                copy: HeldParts::of(&held.copy),
                made: held.made,
            }),
            Hand::Itd(held) => HandParts::Itd(ItdParts::of(held)),
            Hand::Sitd(held) => HandParts::Sitd(SitdParts::of(held)),
        }
    }

    /// The copy that has these parts, where that of an iTD moved no fewer bytes than were received.
    fn hand(&self, got: &[u8]) -> Option<Hand>
        ensures exact { result ≡ hand_from (length got.now) self.now }
        ensures whole { IfSome result (λ h. IsInHand got.now h × (hand_parts h ≡ self.now)) }
    {
        match self {
            HandParts::Queue(parts) => match parts.copy.held() {
                None => None,
                Some(copy) => Some(Hand::Queue(HeldQueue {
                    copy,
                    made: parts.made,
                })),
            },
            HandParts::Itd(parts) => match parts.held() {
                Some(held) if got.len() <= held.moved as usize => Some(Hand::Itd(held)),
                _ => None,
            },
            HandParts::Sitd(parts) => match parts.held() {
                None => None,
                Some(held) => Some(Hand::Sitd(held)),
            },
        }
    }
}

/// The parts of what is in hand.
pub(crate) fn parts_of(got: &[u8], hand: &Option<Hand>) -> Option<HandParts>
    requires { IfSome hand.now (IsInHand got.now) }
    ensures { result ≡ option_map hand_parts hand.now }
{
    match hand {
        None => None,
        Some(hand) => Some(HandParts::of(got, hand)),
    }
}

/// What is in hand by its parts.
pub(crate) fn hand_of(got: &[u8], hand: &Option<HandParts>) -> Option<Option<Hand>>
    ensures exact { result ≡ in_hand_from (length got.now) hand.now }
    ensures whole { IfSome result (λ h. IfSome h (IsInHand got.now) × (option_map hand_parts h ≡ hand.now)) }
{
    match hand {
        None => Some(None),
        Some(parts) => match parts.hand(got) {
            None => None,
            Some(hand) => Some(Some(hand)),
        },
    }
}

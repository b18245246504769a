ghost use Rattle.std.specs.Prelude.{◌≡◌, ◌%◌};

use arrayvec::ArrayVec;
use hc_copy::Held;
use hc_iso::{HeldItd, HeldSitd};
use link_words::{Link, LinkBits};
use op_registers::Registers;
use std::marker::Model;
use usb_base::{Ps, Reply};

/// The copy of an interrupt queue head in hand.
#[derive(Clone, Copy, Debug, PartialEq, Eq)]
pub struct HeldQueue {
    /// The copy.
    pub copy: Held,
    /// How many transactions were made in this visit, up to 255.
    pub made: u8,
}

/// The copy in hand.
#[derive(Clone, Copy, Debug, PartialEq, Eq)]
pub enum Hand {
    /// Of the queue head of an interrupt endpoint.
    Queue(HeldQueue),
    /// Of an isochronous transfer descriptor.
    Itd(HeldItd),
    /// Of a split-transaction isochronous transfer descriptor.
    Sitd(HeldSitd),
}

/// The state of the walk of a frame's chain: the cursor, the copy in hand and what was heard for it, and the time left.
#[derive(Debug, Drop)]
pub struct PeriodicState {
    pub(crate) cursor: Link,
    pub(crate) index: u16,
    pub(crate) hand: Option<Hand>,
    // Beside the copy and not in it, so that no packet is moved with a copy.
    pub(crate) reply: Reply,
    pub(crate) got: ArrayVec<u8, 3072>,
    // Room for the bytes of one packet that goes out; what stands there before and after a transaction means nothing.
    pub(crate) out: [u8; 1024],
    pub(crate) left: Ps,
}

impl Model for PeriodicState {
    ghost use Rattle.periodic_walk.specs.Walk.{Walk, IsWalk};

    ghost Value = { Walk };

    ghost view = { λ s. record { cursor = s.cursor; index = s.index; hand = s.hand; reply = s.reply; got = s.got.items; left = s.left.0 } };

    ghost invariant = { λ s. IsWalk s.cursor s.hand s.got.items };
}

impl PeriodicState {
    ghost use Rattle.link_words.specs.Links.{IsAligned, address_of};
    ghost use Rattle.op_registers.specs.Events.{after_fault};
    ghost use Rattle.periodic_walk.specs.Place.{passed};
    ghost use Rattle.periodic_walk.specs.Walk.{new_walk, begun, stopped, is_over, held_address};

    /// A walk that has begun no microframe: it is at the end of a chain, with no copy in hand and no time left.
    pub fn new() -> PeriodicState
        ensures { result ≡ new_walk }
    {
        PeriodicState {
            cursor: Link::End,
            index: 0,
            hand: None,
            reply: Reply::Silent,
            got: ArrayVec::new(),
            out: [0; 1024],
            left: Ps(0),
        }
    }

    /// Begins the part of the microframe that FRINDEX tells, which has this time: its chain begins with the link of the frame list's
    /// element (EHCI 1.0, 4.6). No copy is in hand.
    pub fn begin(&mut self, first: Link, frindex: u16, left: Ps)
        requires { IsAligned first }
        ensures { self.new ≡ begun self.old first frindex left.0 }
    {
        self.cursor = first;
        self.index = frindex;
        self.hand = None;
        self.left = left;
    }

    /// Ends the part at once, as a driver does that disables it: no copy is in hand any more.
    pub fn stop(&mut self)
        ensures { self.new ≡ stopped self.old }
    {
        self.hand = None;
    }

    /// Whether the part is over: the chain has ended, and no copy is in hand. Then `step` makes no event but `Ended`.
    pub fn is_over(&self) -> bool
        ensures { result ≡ is_over self.now }
    {
        match &self.hand {
            None => self.cursor.is_end(),
            Some(_) => false,
        }
    }

    /// The byte address that the cursor's link names; 0 at the end of the chain.
    pub fn at(&self) -> u32
        ensures { result ≡ address_of self.now.cursor }
    {
        self.cursor.address()
    }

    /// The byte address of the structure whose copy is in hand; None exactly where no copy is.
    pub fn held(&self) -> Option<u32>
        ensures { result ≡ held_address self.now.hand }
    {
        match &self.hand {
            None => None,
            Some(Hand::Queue(held)) => Some(held.copy.at),
            Some(Hand::Itd(held)) => Some(held.at),
            Some(Hand::Sitd(held)) => Some(held.at),
        }
    }

    /// The time that is left in the microframe, in picoseconds.
    pub fn left(&self) -> Ps
        ensures { result.0 ≡ self.now.left }
    {
        self.left
    }

    /// The walk can't go on.
    pub(crate) fn fault(&mut self, regs: &mut Registers)
        ensures walk { self.new ≡ stopped self.old }
        ensures registers { regs.new ≡ after_fault regs.old }
    {
        self.hand = None;
        regs.fault();
    }

    /// The visit is over, and this link comes next.
    pub(crate) fn pass(&mut self, link: LinkBits)
        requires { link.address % 32 ≡ 0 }
        ensures { self.new ≡ passed link self.old }
    {
        self.cursor = Link::from(link);
        self.hand = None;
    }
}

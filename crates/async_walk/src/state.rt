ghost use Rattle.std.specs.Prelude.{◌≡◌};

use hc_copy::Held;
use link_words::Link;
use std::marker::Model;
use usb_base::{Ps, Reply};

/// One event of a walk.
#[derive(Clone, Copy, Debug, PartialEq, Eq)]
pub enum WalkStep {
    /// A structure was read into the copy in hand (EHCI 1.0, 4.10.1).
    Fetch,
    /// The copy's overlay was made from a qTD and written (4.10.2).
    Advance,
    /// One transaction was made (4.10.3).
    Transact,
    /// Received bytes and words 3 to 11 were written, and the visit is over (4.10.4).
    WriteBack,
    /// There was nothing to do at this structure, and the visit is over.
    Skip,
    /// The walk's part of the microframe is over.
    Ended,
    /// The walk met what it can't go on from: a host system error (4.15.2.4).
    Fault,
}

/// When the count of NAKs is reloaded (EHCI 1.0, 4.9).
#[derive(Clone, Copy, Debug, PartialEq, Eq)]
pub enum ReloadMode {
    /// Nothing is reloaded until the head of the ring is read.
    WaitHead,
    /// Each queue head that is read is reloaded, until the head of the ring is read again.
    Reload,
    /// Nothing is reloaded until the next microframe.
    WaitStart,
}

/// What the walk reads next, or has in hand.
#[derive(Clone, Copy, Debug, PartialEq, Eq)]
pub enum Cursor {
    /// The start of the ring: the queue head that ASYNCLISTADDR names.
    Start,
    /// What this link leads to.
    At(Link),
}

/// The state of the walk of the asynchronous ring: the cursor, the copy in hand and what was heard for it, the time left and the reload
/// mode.
#[derive(Debug, Drop)]
pub struct AsyncState {
    pub(crate) cursor: Cursor,
    pub(crate) held: Option<Held>,
    // Beside the copy and not in it, so that no packet is moved with a copy.
    pub(crate) reply: Reply,
    // Room for the bytes of one packet that goes out; what stands there before and after a transaction means nothing.
    pub(crate) out: [u8; 1024],
    pub(crate) left: Ps,
    pub(crate) mode: ReloadMode,
    pub(crate) first: bool,
}

impl Model for AsyncState {
    ghost use Rattle.async_walk.specs.Walk.{Walk, IsWalk};

    ghost Value = { Walk };

    ghost view = { λ a. record { cursor = a.cursor; held = a.held; reply = a.reply; left = a.left.0; mode = a.mode; first = a.first } };

    ghost invariant = { λ a. IsWalk a.cursor a.held };
}

impl AsyncState {
    ghost use Rattle.async_walk.specs.Walk.{new_walk, begun, stopped, cursor_address, held_address};

    /// A walk that has begun no microframe: it is at the start of the ring, with no copy in hand and no time left.
    pub fn new() -> AsyncState
        ensures { result ≡ new_walk }
    {
        AsyncState {
            cursor: Cursor::Start,
            held: None,
            reply: Reply::Silent,
            out: [0; 1024],
            left: Ps(0),
            mode: ReloadMode::WaitHead,
            first: false,
        }
    }

    /// Begins the part of the next microframe, which has this time (EHCI 1.0, 4.8). The cursor stays, and no copy is in hand.
    pub fn begin(&mut self, left: Ps)
        ensures { self.new ≡ begun self.old left.0 }
    {
        self.held = None;
        self.left = left;
        self.first = true;
    }

    /// Ends the part at once, as a driver does that disables it: no copy is in hand any more, and the cursor stays.
    pub fn stop(&mut self)
        ensures { self.new ≡ stopped self.old }
    {
        self.held = None;
    }

    /// The byte address that the cursor's link names; 0 at the start of the ring and at the end of a list.
    pub fn at(&self) -> u32
        ensures { result ≡ cursor_address self.now.cursor }
    {
        match self.cursor {
            Cursor::Start => 0,
            Cursor::At(link) => link.address(),
        }
    }

    /// The byte address of the queue head whose copy is in hand; None exactly where no copy is.
    pub fn held(&self) -> Option<u32>
        ensures { result ≡ held_address self.now.held }
    {
        match &self.held {
            Some(held) => Some(held.at),
            None => None,
        }
    }

    /// The time that is left in the microframe, in picoseconds.
    pub fn left(&self) -> Ps
        ensures { result.0 ≡ self.now.left }
    {
        self.left
    }

    /// The reload mode of the count of NAKs.
    pub fn mode(&self) -> ReloadMode
        ensures { result ≡ self.now.mode }
    {
        self.mode
    }
}

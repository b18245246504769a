ghost use Rattle.std.specs.Prelude.{◌≡◌, ◌≤◌, ◌==◌, true, false, None, Some, length, take};
ghost use Rattle.op_registers.specs.RegisterFile.{reset_file};
ghost use Rattle.hc_core.specs.Controller.{new_control};
ghost use Rattle.async_walk.specs.Walk.{IsCursor, new_walk};
ghost use Rattle.link_words.specs.Links.{IsAligned};
ghost use Rattle.hc_microframe.specs.State.{shown};
ghost use Rattle.hc_microframe.specs.Numbers.{heard_in, hand_in, cursor_in, held_in, ring_parts_in, ring_in, frame_parts_in, frame_in, control_of};

use crate::numbers::{
    HeardWords, ItdWords, QueueWords, SitdWords, mode_number, mode_of, part_number, part_of,
};
use crate::state::{State, reset, state_of};
use async_walk::{AsyncState, Cursor, HeldParts, RingParts};
use hc_core::Controller;
use link_words::{read, write};
use op_registers::Registers;
use periodic_walk::{FrameParts, HandParts, PeriodicState, QueueParts};
use usb_base::{Ps, Reply};

/// The copy in hand of the walk of a frame's chain, in numbers.
#[repr(C)]
#[derive(Clone, Copy, Debug, PartialEq, Eq)]
pub struct HandWords {
    /// 1: of a queue head; 2: of an iTD; 3: of a siTD; else nothing is in hand.
    pub kind: u32,
    pub queue: QueueWords,
    pub itd: ItdWords,
    pub sitd: SitdWords,
}

/// The walk of a frame's chain, in numbers.
#[repr(C)]
#[derive(Clone, Copy, Debug, PartialEq, Eq)]
pub struct FrameWords {
    /// The time left in the microframe, in picoseconds.
    pub left: u64,
    /// The word of the link that is read next, or is in hand.
    pub cursor: u32,
    /// FRINDEX of the microframe.
    pub index: u16,
    /// How many bytes an iTD in hand received.
    pub got_len: u16,
    /// The copy in hand.
    pub hand: HandWords,
    /// What was heard in the last transaction.
    pub heard: HeardWords,
    /// The bytes that an iTD in hand received.
    pub got: [u8; 3072],
}

/// The walk of the ring, in numbers.
#[repr(C)]
#[derive(Clone, Copy, Debug, PartialEq, Eq)]
pub struct RingWords {
    /// The time left in the microframe, in picoseconds.
    pub left: u64,
    /// The word of the link that is read next, or is in hand.
    pub cursor: u32,
    /// 1: the cursor is there; else it is at the start of the ring.
    pub begun: u8,
    /// When the count of NAKs is reloaded (EHCI 1.0, 4.9): 1 now, 2 in the next microframe, else at the head of the ring.
    pub mode: u8,
    /// 1: the next event is the first of its microframe.
    pub first: u8,
    /// 1: a copy is in hand.
    pub holds: u8,
    /// That copy.
    pub queue: QueueWords,
    /// What was heard in the last transaction.
    pub heard: HeardWords,
}

/// All of a controller between two events.
#[repr(C)]
#[derive(Clone, Copy, Debug, PartialEq, Eq)]
pub struct Whole {
    /// The words of its registers; the place in the ring counts for nothing.
    pub registers: State,
    /// 1: in the periodic part of a microframe; 2: in the asynchronous part; else between two microframes.
    pub part: u32,
    /// The walk of the frame's chain.
    pub frame: FrameWords,
    /// The walk of the ring.
    pub ring: RingWords,
}

impl HandWords {
    fn none() -> HandWords
        ensures { hand_in result ≡ None }
    {
        HandWords {
            kind: 0,
            queue: QueueWords::none(),
            itd: ItdWords::none(),
            sitd: SitdWords::none(),
        }
    }

    fn parts(&self) -> Option<HandParts>
        ensures { result ≡ hand_in self.now }
    {
        match self.kind {
            1 => Some(HandParts::Queue(QueueParts {
                copy: self.queue.parts(),
                made: self.queue.made,
            })),
            2 => Some(HandParts::Itd(self.itd.parts())),
            3 => Some(HandParts::Sitd(self.sitd.parts())),
            _ => None,
        }
    }

    /// What is in hand, in its place; the numbers of other copies stay.
    fn set(&mut self, hand: &Option<HandParts>)
        ensures { hand_in self.new ≡ hand.now }
    {
        match hand {
            None => self.kind = 0,
            Some(HandParts::Queue(parts)) => {
                self.kind = 1;
                self.queue = QueueWords::of(&parts.copy, parts.made);
            }
            Some(HandParts::Itd(parts)) => {
                self.kind = 2;
                self.itd = ItdWords::of(parts);
            }
            Some(HandParts::Sitd(parts)) => {
                self.kind = 3;
                self.sitd = SitdWords::of(parts);
            }
        }
    }
}

fn got(words: &FrameWords) -> &[u8]
    ensures { result.now ≡ take words.now.got_len words.now.got }
{
    &words.got[..words.got_len.min(3072) as usize]
}

impl FrameWords {
    /// The walk of the frame's chain takes these numbers in place; false where no walk has them.
    fn load(&self, controller: &mut Controller) -> bool
        ensures loaded { result ≡ true → frame_in self.now ≡ Some controller.new.frame }
        ensures refused { result ≡ false → frame_in self.now ≡ None }
        ensures same { controller.new ≡ record controller.old { frame = controller.new.frame } }
    {
        let parts = FrameParts {
            cursor: read(self.cursor),
            index: self.index,
            hand: self.hand.parts(),
            left: Ps(self.left),
        };
        controller.load_frame(&parts, &self.heard.reply(), got(self))
    }

    #[tactic(auto, using(link_words::proofs::LinkLaws::link_laws))]
    fn set_numbers(&mut self, parts: &FrameParts, reply: &Reply, received: &[u8])
        requires cursor { IsAligned parts.now.cursor }
        requires room { length received.now ≤ 3072 }
        ensures parts { frame_parts_in self.new ≡ parts.now }
        ensures heard { heard_in self.new.heard ≡ reply.now }
        ensures got { take self.new.got_len self.new.got ≡ received.now }
    {
        self.left = parts.left.0;
        self.cursor = write(parts.cursor);
        self.index = parts.index;
        self.got_len = received.len() as u16;
        self.hand.set(&parts.hand);
        self.heard.set(reply);
        self.got[..received.len()].copy_from_slice(received);
    }

    /// The numbers of a walk, in their places.
    #[tactic(auto, using(crate::proofs::Wholes::frame_whole))]
    fn set(&mut self, walk: &PeriodicState)
        ensures { frame_in self.new ≡ Some walk.now }
    {
        let parts = walk.parts();
        self.set_numbers(&parts, walk.reply(), walk.got());
    }

    fn zero() -> FrameWords {
        FrameWords {
            left: 0,
            cursor: 0,
            index: 0,
            got_len: 0,
            hand: HandWords::none(),
            heard: HeardWords::nothing(),
            got: [0; 3072],
        }
    }
}

fn cursor_of(begun: u8, word: u32) -> Cursor
    ensures { result ≡ cursor_in begun word }
{
    if begun == 1 {
        Cursor::At(read(word))
    } else {
        Cursor::Start
    }
}

#[tactic(auto, using(link_words::proofs::LinkLaws::link_laws))]
fn cursor_numbers(cursor: Cursor) -> (u8, u32)
    requires { IsCursor cursor }
    ensures { cursor_in result.0 result.1 ≡ cursor }
{
    match cursor {
        Cursor::Start => (0, 0),
        Cursor::At(link) => (1, write(link)),
    }
}

fn flag_number(flag: bool) -> u8
    ensures { (result == 1) ≡ flag }
{
    if flag { 1 } else { 0 }
}

fn held_of(holds: u8, queue: &QueueWords) -> Option<HeldParts>
    ensures { result ≡ held_in holds queue.now }
{
    if holds == 1 {
        Some(queue.parts())
    } else {
        None
    }
}

impl RingWords {
    /// A walk that has begun no microframe.
    pub(crate) fn new() -> RingWords
        ensures { ring_in result ≡ Some new_walk }
    {
        let mut words = Self::zero();
        words.set(&AsyncState::new());
        words
    }

    /// The walk of the ring takes these numbers in place; false where no walk has them.
    fn load(&self, controller: &mut Controller) -> bool
        ensures loaded { result ≡ true → ring_in self.now ≡ Some controller.new.walk }
        ensures refused { result ≡ false → ring_in self.now ≡ None }
        ensures same { controller.new ≡ record controller.old { walk = controller.new.walk } }
    {
        let parts = RingParts {
            cursor: cursor_of(self.begun, self.cursor),
            held: held_of(self.holds, &self.queue),
            left: Ps(self.left),
            mode: mode_of(self.mode),
            first: self.first == 1,
        };
        controller.load_walk(&parts, &self.heard.reply())
    }

    /// The copy in hand, in its place; where there is none the numbers of another stay.
    fn set_held(&mut self, held: &Option<HeldParts>)
        ensures held { held_in self.new.holds self.new.queue ≡ held.now }
        ensures same { self.new ≡ record self.old { holds = self.new.holds; queue = self.new.queue } }
    {
        match held {
            None => self.holds = 0,
            Some(parts) => {
                self.holds = 1;
                self.queue = QueueWords::of(parts, 0);
            }
        }
    }

    fn set_numbers(&mut self, parts: &RingParts, reply: &Reply)
        requires { IsCursor parts.now.cursor }
        ensures parts { ring_parts_in self.new ≡ parts.now }
        ensures heard { heard_in self.new.heard ≡ reply.now }
    {
        let (begun, cursor) = cursor_numbers(parts.cursor);
        self.left = parts.left.0;
        self.cursor = cursor;
        self.begun = begun;
        self.mode = mode_number(parts.mode);
        self.first = flag_number(parts.first);
        self.set_held(&parts.held);
        self.heard.set(reply);
    }

    /// The numbers of a walk, in their places.
    #[tactic(auto, using(crate::proofs::Wholes::ring_whole))]
    fn set(&mut self, walk: &AsyncState)
        ensures { ring_in self.new ≡ Some walk.now }
    {
        let parts = walk.parts();
        self.set_numbers(&parts, walk.reply());
    }

    fn zero() -> RingWords {
        RingWords {
            left: 0,
            cursor: 0,
            begun: 0,
            mode: 0,
            first: 0,
            holds: 0,
            queue: QueueWords::none(),
            heard: HeardWords::nothing(),
        }
    }
}

impl Whole {
    /// The controller takes these numbers in place; false where none has them.
    pub(crate) fn load(&self, controller: &mut Controller) -> bool
        ensures loaded { result ≡ true → control_of self.now ≡ Some controller.new }
        ensures refused { result ≡ false → control_of self.now ≡ None }
    {
        controller.set_part(part_of(self.part));
        if !self.frame.load(controller) {
            return false;
        }
        self.ring.load(controller)
    }

    /// The controller begins anew; its registers stay.
    pub(crate) fn begin_anew(&mut self)
        ensures control { control_of self.new ≡ Some new_control }
        ensures registers { self.new.registers ≡ self.old.registers }
    {
        let new = reset_whole();
        self.part = new.part;
        self.frame = new.frame;
        self.ring = new.ring;
    }

    /// The numbers of a controller and its registers, in their places.
    pub(crate) fn set(&mut self, controller: &Controller, regs: &Registers)
        ensures control { control_of self.new ≡ Some controller.now }
        ensures registers { self.new.registers ≡ shown regs.now 0 }
    {
        self.registers = state_of(regs, 0);
        self.part = part_number(controller.part());
        self.frame.set(controller.frame());
        self.ring.set(controller.walk());
    }
}

/// A controller after a reset: halted, between two microframes.
pub fn reset_whole() -> Whole
    ensures control { control_of result ≡ Some new_control }
    ensures registers { result.registers ≡ shown reset_file 0 }
{
    let mut whole = Whole {
        registers: reset(),
        part: 0,
        frame: FrameWords::zero(),
        ring: RingWords::zero(),
    };
    whole.set(&Controller::new(), &Registers::reset());
    whole
}

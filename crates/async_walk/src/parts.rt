ghost use Rattle.std.specs.Prelude.{◌≡◌, Option, Some, None, true, false, IfSome, option_map};
ghost use Rattle.hc_copy.specs.declared.held.Held.{Held as Copied};
ghost use Rattle.hc_copy.specs.Visits.{IsHeld};
ghost use Rattle.async_walk.specs.Walk.{Walk, IsWalk};
ghost use Rattle.async_walk.specs.Parts.{held_parts, held_from, hand_from, is_cursor, ring_parts, walk_from};

use crate::state::{AsyncState, Cursor, ReloadMode};
use hc_copy::Held;
use qh_qtd::Qh;
use toggle_error::Outcome;
use usb_base::{Ps, Reply};

/// The copy of a queue head in hand, by its words.
#[derive(Clone, Copy, Debug, PartialEq, Eq)]
pub struct HeldParts {
    /// Where the queue head stands: a byte address.
    pub at: u32,
    /// The words of the copy.
    pub words: [u32; 12],
    /// What its transaction came to, once it was made.
    pub settled: Option<Outcome>,
}

/// The walk of the ring as plain values. What was heard last stands beside them.
#[derive(Clone, Copy, Debug, PartialEq, Eq)]
pub struct RingParts {
    /// What is read next, or is in hand.
    pub cursor: Cursor,
    /// The copy in hand.
    pub held: Option<HeldParts>,
    /// The time left in the microframe.
    pub left: Ps,
    /// When the count of NAKs is reloaded.
    pub mode: ReloadMode,
    /// Whether the next event is the first of its microframe.
    pub first: bool,
}

impl HeldParts {
    /// The parts of a copy.
    pub fn of(held: &Held) -> HeldParts
        requires { IsHeld held.now }
        ensures { result ≡ held_parts held.now }
    {
        HeldParts {
            at: held.at,
            words: held.queue_head.write(),
            settled: held.settled,
        }
    }

    /// The copy that has these parts; None where none has.
    #[tactic(auto, using(crate::proofs::Whole::held_back))]
    pub fn held(&self) -> Option<Held>
        ensures exact { result ≡ held_from self.now }

        // A copy has the parts that it is made of, and what has parts is made of them.
        ensures whole { IfSome result (λ h. IsHeld h × (held_parts h ≡ self.now)) }
        ensures back { (h : Copied) → IsHeld h → held_parts h ≡ self.now → result ≡ Some h }
    {
        if self.at % 32 != 0 {
            return None;
        }
        match Qh::read(&self.words) {
            Ok(queue_head) => Some(Held {
                at: self.at,
                queue_head,
                settled: self.settled,
            }),
            Err(_) => None,
        }
    }
}

/// The parts of what is in hand.
fn parts_of(held: &Option<Held>) -> Option<HeldParts>
    requires { IfSome held.now IsHeld }
    ensures { result ≡ option_map held_parts held.now }
{
    match held {
        None => None,
        Some(held) => Some(HeldParts::of(held)),
    }
}

/// What is in hand by its parts.
fn hand_of(held: &Option<HeldParts>) -> Option<Option<Held>>
    ensures exact { result ≡ hand_from held.now }
    ensures whole { IfSome result (λ h. IfSome h IsHeld × (option_map held_parts h ≡ held.now)) }
{
    match held {
        None => Some(None),
        Some(parts) => match parts.held() {
            None => None,
            Some(held) => Some(Some(held)),
        },
    }
}

/// Whether a cursor is one of a walk: its address is a multiple of 32.
fn is_place(cursor: Cursor) -> bool
    ensures { result ≡ is_cursor cursor }
{
    match cursor {
        Cursor::Start => true,
        Cursor::At(link) => link.address() % 32 == 0,
    }
}

/// A copy of what was heard, in the room of a packet that stands there, if one does.
pub fn copy_heard(room: &mut Reply, reply: &Reply)
    ensures { room.new ≡ reply.now }
{
    match reply {
        Reply::Silent => *room = Reply::Silent,
        Reply::Hand(pid) => room.set_hand(*pid),
        Reply::Bytes(pid, packet) => room.set_bytes(*pid, packet.as_slice()),
    }
}

impl AsyncState {
    /// The walk's parts.
    pub fn parts(&self) -> RingParts
        ensures parts { result ≡ ring_parts self.now }
        ensures well_formed { IsWalk self.now.cursor self.now.held }
    {
        RingParts {
            cursor: self.cursor,
            held: parts_of(&self.held),
            left: self.left,
            mode: self.mode,
            first: self.first,
        }
    }

    /// What was heard in the last transaction.
    pub fn reply(&self) -> &Reply
        ensures { result.now ≡ self.now.reply }
    {
        &self.reply
    }

    #[tactic(auto, using(crate::proofs::Whole::cursor_is))]
    fn read_parts(parts: &RingParts, reply: Reply) -> Option<AsyncState>
        ensures exact { result ≡ walk_from parts.now reply }
        ensures whole { IfSome result (λ w. IsWalk w.cursor w.held × (ring_parts w ≡ parts.now) × (w.reply ≡ reply)) }
    {
        if !is_place(parts.cursor) {
            return None;
        }
        match hand_of(&parts.held) {
            None => None,
            Some(held) => Some(AsyncState {
                cursor: parts.cursor,
                held,
                reply,
                out: [0; 1024],
                left: parts.left,
                mode: parts.mode,
                first: parts.first,
            }),
        }
    }

    /// The walk that has these parts and heard this; None where none has.
    #[tactic(auto, using(crate::proofs::Whole::walk_back))]
    pub fn from_parts(parts: &RingParts, reply: Reply) -> Option<AsyncState>
        ensures exact { result ≡ walk_from parts.now reply }

        // A walk has the parts that it is made of, and what has parts is made of them.
        ensures whole { IfSome result (λ w. IsWalk w.cursor w.held × (ring_parts w ≡ parts.now) × (w.reply ≡ reply)) }
        ensures back { (w : Walk) → IsWalk w.cursor w.held → ring_parts w ≡ parts.now → w.reply ≡ reply → result ≡ Some w }
    {
        Self::read_parts(parts, reply)
    }

    /// Takes these parts in place, and a copy of this for what was heard; false, and nothing changes, where no walk has them.
    #[tactic(auto, using(crate::proofs::Whole::cursor_is))]
    pub fn load(&mut self, parts: &RingParts, reply: &Reply) -> bool
        ensures loaded { result ≡ true → walk_from parts.now reply.now ≡ Some self.new }
        ensures refused { result ≡ false → walk_from parts.now reply.now ≡ None }
        ensures stays { result ≡ false → self.new ≡ self.old }
    {
        if !is_place(parts.cursor) {
            return false;
        }
        match hand_of(&parts.held) {
            None => false,
            Some(held) => {
                self.cursor = parts.cursor;
                self.held = held;
                self.left = parts.left;
                self.mode = parts.mode;
                self.first = parts.first;
                copy_heard(&mut self.reply, reply);
                true
            }
        }
    }
}

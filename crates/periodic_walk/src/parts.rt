ghost use Rattle.std.specs.Prelude.{◌≡◌, ◌≤◌, Some, None, true, false, IsSome, IfSome, ◌↔◌, length};
ghost use Rattle.periodic_walk.specs.Walk.{Walk, IsWalk};
ghost use Rattle.periodic_walk.specs.Parts.{is_place, frame_parts, walk_from};

use crate::hand_parts::{HandParts, hand_of, parts_of};
use crate::state::PeriodicState;
use arrayvec::ArrayVec;
use async_walk::copy_heard;
use link_words::Link;
use usb_base::{Ps, Reply};

/// The walk of a frame's chain as plain values. What was heard last, and the bytes that were received, stand beside them.
#[derive(Clone, Copy, Debug, PartialEq, Eq)]
pub struct FrameParts {
    /// What is read next, or is in hand.
    pub cursor: Link,
    /// FRINDEX of the microframe.
    pub index: u16,
    /// The copy in hand.
    pub hand: Option<HandParts>,
    /// The time left in the microframe.
    pub left: Ps,
}

/// Whether a link is a cursor of a walk: its address is a multiple of 32.
fn is_place(link: Link) -> bool
    ensures { result ≡ is_place link }
{
    link.address() % 32 == 0
}

/// A copy of received bytes; None for more than three packets have.
fn kept(bytes: &[u8]) -> Option<ArrayVec<u8, 3072>>
    ensures fits { IsSome result ↔ (length bytes.now ≤ 3072) }
    ensures bytes { IfSome result (λ kept. kept.items ≡ bytes.now) }
{
    let mut kept = ArrayVec::new();
    match kept.try_extend_from_slice(bytes) {
        Ok(()) => Some(kept),
        Err(_) => None,
    }
}

/// A copy of received bytes, in place.
fn set_bytes(room: &mut ArrayVec<u8, 3072>, bytes: &[u8])
    requires { length bytes.now ≤ 3072 }
    ensures { room.new.items ≡ bytes.now }
{
    room.clear();
    let _ = room.try_extend_from_slice(bytes);
}

impl PeriodicState {
    /// The walk's parts.
    pub fn parts(&self) -> FrameParts
        ensures parts { result ≡ frame_parts self.now }
        ensures well_formed { IsWalk self.now.cursor self.now.hand self.now.got }
        ensures bytes { length self.now.got ≤ 3072 }
    {
        FrameParts {
            cursor: self.cursor,
            index: self.index,
            hand: parts_of(self.got.as_slice(), &self.hand),
            left: self.left,
        }
    }

    /// What was heard in the last transaction.
    pub fn reply(&self) -> &Reply
        ensures { result.now ≡ self.now.reply }
    {
        &self.reply
    }

    /// The bytes that an iTD in hand received.
    pub fn got(&self) -> &[u8]
        ensures value { result.now ≡ self.now.got }
        ensures fits { length result.now ≤ 3072 }
    {
        self.got.as_slice()
    }

    #[tactic(auto, using(crate::proofs::Whole::place_is))]
    fn read_parts(parts: &FrameParts, reply: Reply, got: &[u8]) -> Option<PeriodicState>
        ensures exact { result ≡ walk_from parts.now reply got.now }
        ensures whole { IfSome result (λ w. IsWalk w.cursor w.hand w.got × (frame_parts w ≡ parts.now) × (w.reply ≡ reply)
            × (w.got ≡ got.now)) }
    {
        if got.len() > 3072 || !is_place(parts.cursor) {
            return None;
        }
        let hand = hand_of(got, &parts.hand)?;
        let got = kept(got)?;
        Some(PeriodicState {
            cursor: parts.cursor,
            index: parts.index,
            hand,
            reply,
            got,
            out: [0; 1024],
            left: parts.left,
        })
    }

    /// The walk that has these parts, heard this and received these bytes; None where none has.
    #[tactic(auto, using(crate::proofs::Whole::walk_back))]
    pub fn from_parts(parts: &FrameParts, reply: Reply, got: &[u8]) -> Option<PeriodicState>
        ensures exact { result ≡ walk_from parts.now reply got.now }

        // A walk has the parts that it is made of, and what has parts is made of them.
        ensures whole { IfSome result (λ w. IsWalk w.cursor w.hand w.got × (frame_parts w ≡ parts.now) × (w.reply ≡ reply)
            × (w.got ≡ got.now)) }
        ensures back { (w : Walk) → IsWalk w.cursor w.hand w.got → length w.got ≤ 3072 → frame_parts w ≡ parts.now → w.reply ≡ reply
            → w.got ≡ got.now → result ≡ Some w }
    {
        Self::read_parts(parts, reply, got)
    }

    /// Takes these parts in place, and copies of this for what was heard and of these bytes; false, and nothing changes, where no walk has
    /// them.
    #[tactic(auto, using(crate::proofs::Whole::place_is))]
    pub fn load(&mut self, parts: &FrameParts, reply: &Reply, got: &[u8]) -> bool
        ensures loaded { result ≡ true → walk_from parts.now reply.now got.now ≡ Some self.new }
        ensures refused { result ≡ false → walk_from parts.now reply.now got.now ≡ None }
        ensures stays { result ≡ false → self.new ≡ self.old }
    {
        if got.len() > 3072 || !is_place(parts.cursor) {
            return false;
        }
        match hand_of(got, &parts.hand) {
            None => false,
            Some(hand) => {
                self.cursor = parts.cursor;
                self.index = parts.index;
                self.hand = hand;
                self.left = parts.left;
                copy_heard(&mut self.reply, reply);
                set_bytes(&mut self.got, got);
                true
            }
        }
    }
}

ghost use Rattle.std.specs.Prelude.{◌≡◌, ◌+◌, ◌≤◌, ◌<◌, ◌^◌, ◌++◌, ◌-◌, ℕ, List, length, take, drop};
ghost use Rattle.bulk_only.specs.Commands.{whole_block, with_room};
ghost use Rattle.bulk_only.specs.Fronts.{is_front};

use crate::command_block::CommandBlock;
use crate::rows::are_front;
use arrayvec::ArrayVec;
use std::marker::Model;

/// Bytes that stand in two places, as one list.
#[derive(Drop)]
pub(crate) struct Joined<'a> {
    front: &'a [u8],
    back: &'a [u8],
}

impl<'a> Model for Joined<'a> {
    ghost Value = { List ℕ };

    ghost view = { λ j. j.front.now ++ j.back.now };
}

impl<'a> Joined<'a> {
    /// The bytes of `front`, and behind them those of `back`.
    pub(crate) fn of(front: &'a [u8], back: &'a [u8]) -> Joined<'a>
        ensures { result ≡ front.now ++ back.now }
    {
        Joined { front, back }
    }

    /// How many they are.
    pub(crate) fn len(&self) -> usize
        ensures { result ≡ length self.now }
    {
        self.front.len() + self.back.len()
    }

    /// The bytes from place `at` to `end`, those of the front and those of the back.
    #[tactic(auto, using(crate::proofs::Lists::both_parts, crate::proofs::Lists::both_lengths))]
    pub(crate) fn part(&self, at: usize, end: usize) -> (&'a [u8], &'a [u8])
        requires order { at ≤ end }
        requires within { end ≤ length self.now }
        ensures bytes { result.0.now ++ result.1.now ≡ take (end - at) (drop at self.now) }
        ensures len { length result.0.now + length result.1.now ≡ end - at }
    {
        let front = self.front.len();
        let first = usize::min(at, front);
        let last = usize::min(end, front);
        (&self.front[first..last], &self.back[at - first..end - last])
    }

    /// The bytes from place `at` on, at most 31.
    fn head(&self, at: usize) -> ArrayVec<u8, 31>
        requires { at ≤ length self.now }
        ensures { result.items ≡ take 31 (drop at self.now) }
    {
        let end = at + usize::min(self.len() - at, 31);
        let (front, back) = self.part(at, end);
        let mut head = ArrayVec::new();
        append(&mut head, front);
        append(&mut head, back);
        head
    }

    /// Whether a front part of a command block stands from place `at` on.
    #[tactic(auto, using(crate::proofs::Allowed::front_of_head))]
    pub(crate) fn is_front(&self, at: usize) -> bool
        requires { at ≤ length self.now }
        ensures { result ≡ is_front (drop at self.now) }
    {
        are_front(self.head(at).as_slice())
    }

    /// The command block at place `at`, if its data are there too.
    pub(crate) fn whole_block(&self, at: usize) -> Option<CommandBlock>
        requires { at ≤ length self.now }
        ensures block { result ≡ whole_block (drop at self.now) }
        ensures bound { length self.now < 2 ^ 64 }
    {
        let head = self.head(at);
        let block = CommandBlock::read(head.as_slice());
        with_room(self.len() - at, block)
    }
}

/// The command block, if its data are among so many bytes too.
fn with_room(bytes: usize, block: Option<CommandBlock>) -> Option<CommandBlock>
    ensures { result ≡ with_room bytes block }
{
    match block {
        Some(block) if block.size() <= bytes => Some(block),
        _ => None,
    }
}

/// Puts these bytes behind those that are there.
fn append(head: &mut ArrayVec<u8, 31>, bytes: &[u8])
    requires { length head.old.items + length bytes.now ≤ 31 }
    ensures { head.new.items ≡ head.old.items ++ bytes.now }
{
    let _fits = head.try_extend_from_slice(bytes);
}

ghost use Rattle.std.specs.Prelude.{◌≡◌, ℕ, ◌+◌, ◌≤◌, ◌<◌, ◌^◌, nat_eq, true, false, List, [], ◌∷◌, map, take, drop, length, IfOk, IsTrue, option_map};
ghost use Rattle.std.specs.List.{list_any, last_or, find, count_by};
ghost use Rattle.drv_chains.specs.declared.members.Descriptor.{Descriptor as One};
ghost use Rattle.drv_chains.specs.declared.members.Member.TheVariants.{Once, Each};
ghost use Rattle.drv_chains.specs.declared.members.Predecessor.TheVariants.{Element as InList};
ghost use Rattle.drv_chains.specs.declared.members.Predecessor.{Predecessor as Word};
ghost use Rattle.drv_chains.specs.Chains.{Schedule, is_active, of_lists, has_name, id_of, descriptors_in, word_after, before_the, predecessor, successor};
ghost use Rattle.drv_chains.specs.Classes.{members, periods_of, last_of};
ghost use Rattle.drv_members.specs.Members.{word_in_frame};

use crate::checks::may_be_member;
use crate::order::{highest_of, lowest_of, rank_of_queue};
use crate::{descriptors, queues};
use bandwidth_steps::{AnyLedger, CountedBy, Steps};
use drv_chains::{Descriptor, Member, Predecessor, QueueHead};
use drv_search::Classes;
use std::alloc::Global;
use std::marker::{Model, PhantomData};
use std::sync::ledger::Ledger;
use usb_base::Memory;

/// The members of the frame list: queue heads by period and phase, descriptors by frame. No two have one name. A step is
/// one reading of a class, on a ledger that may count them.
#[derive(Drop)]
pub struct FrameMembers<C = AnyLedger> {
    queues: Vec<QueueHead>,
    descriptors: Vec<Descriptor>,
    queue_room: u32,
    descriptor_room: u32,
    counted: PhantomData<C>,
}

impl<C> Model for FrameMembers<C> {
    ghost use Rattle.std.specs.Prelude.{◌≤◌, vec_capacity};
    ghost use Rattle.drv_chains.specs.Chains.{of_lists};
    ghost use Rattle.drv_members.specs.Members.{Members, IsKept};

    ghost Value = { Members };

    ghost view = { λ m. record { schedule = of_lists m.descriptors.items m.queues.items; queue_room = m.queue_room; descriptor_room = m.descriptor_room } };

    ghost invariant = { λ m. IsKept (of_lists m.descriptors.items m.queues.items) × ((m.queue_room ≤ vec_capacity m.queues) × (m.descriptor_room ≤ vec_capacity m.descriptors)) };
}

impl<L: Ledger, C: CountedBy<L>> Classes<L> for FrameMembers<C> {
    ghost schedule = { λ m. m.schedule };

    fn last(&self, level: u8, phase: u16, reads: &mut Steps<L>) -> Option<QueueHead> {
        reads.take();
        queues::last_between(
            &self.queues,
            lowest_of(level, phase),
            highest_of(level, phase),
        )
    }
}

impl FrameMembers {
    ghost use Rattle.drv_members.specs.Ranks.{is_named};

    /// No member yet, with room for so many of each kind.
    ///
    /// # Errors
    ///
    /// `Memory` where they find no room.
    pub fn build(alloc: Global, queues: u32, descriptors: u32) -> Result<FrameMembers, Memory>
        ensures { IfOk result (λ m. m ≡ record { schedule = of_lists [] []; queue_room = queues; descriptor_room = descriptors }) }
    {
        Ok(FrameMembers {
            queues: Vec::with_capacity(alloc, queues as usize)?,
            descriptors: Vec::with_capacity(alloc, descriptors as usize)?,
            queue_room: queues,
            descriptor_room: descriptors,
            counted: PhantomData,
        })
    }

    /// The queue heads of a class, in the order of the chain, each once.
    pub fn class(&self, level: u8, phase: u16) -> &[QueueHead]
        requires level { level ≤ 10 }
        requires phase { phase < 2 ^ level }
        ensures class { result.now ≡ members self.now.schedule level phase }
        ensures once { (id : ℕ) → count_by (is_named id) result.now ≤ 1 }
    {
        queues::between(
            &self.queues,
            lowest_of(level, phase),
            highest_of(level, phase),
        )
    }
}

impl<C> FrameMembers<C> {
    ghost use Rattle.drv_members.specs.Ranks.{is_queue};
    ghost use Rattle.drv_members.specs.Members.{IsKept, IsMember, HasRoom, has_room, takes, with_member, without_member, with_schedule, frame_of, is_linked, words_ahead, first_of_both};

    /// Whether a member may be put in: it is in range, its name is new, and there is room.
    pub fn takes(&self, member: &Member) -> bool
        ensures test { result ≡ takes self.now member.now }
        ensures member { IsTrue result → IsMember member.now }
        ensures new { IsTrue result → has_name self.now.schedule (id_of member.now) ≡ false }
        ensures room { IsTrue result → HasRoom self.now member.now }
    {
        may_be_member(member) && !self.has_name(name_of(member)) && self.has_room(member)
    }

    /// Whether a member has this name.
    fn has_name(&self, id: u32) -> bool
        ensures { result ≡ has_name self.now.schedule id }
    {
        descriptors::has_name_in(&self.descriptors, id) || queues::has_name_in(&self.queues, id)
    }

    /// Whether there is room for one more of this kind.
    fn has_room(&self, member: &Member) -> bool
        ensures { result ≡ has_room self.now member.now }
    {
        match member {
            Member::Once(_) => self.descriptors.len() < self.descriptor_room as usize,
            Member::Each(_) => self.queues.len() < self.queue_room as usize,
        }
    }

    /// Whether this is a member.
    pub fn has(&self, member: &Member) -> bool
        ensures { result ≡ is_linked self.now.schedule member.now }
    {
        match member {
            Member::Once(descriptor) => descriptors::has(&self.descriptors, descriptor),
            Member::Each(queue) => queues::has(&self.queues, queue),
        }
    }

    /// Puts a member in its place: a queue head behind those of its period and phase, a descriptor ahead of those of its frame.
    pub fn insert(&mut self, member: &Member)
        requires member { IsMember member.now }
        requires new { has_name self.old.schedule (id_of member.now) ≡ false }
        requires room { HasRoom self.old member.now }
        ensures members { self.new ≡ with_schedule self.old (with_member self.old.schedule member.now) }
        ensures kept { IsKept self.new.schedule }
    {
        match *member {
            Member::Once(descriptor) => {
                descriptors::put_descriptor(&mut self.descriptors, descriptor);
            }
            Member::Each(queue) => queues::put_queue(&mut self.queues, queue),
        }
    }

    /// Takes out the member with this one's name.
    pub fn remove(&mut self, member: &Member)
        ensures members { self.new ≡ with_schedule self.old (without_member self.old.schedule member.now) }
        ensures kept { IsKept self.new.schedule }
    {
        match *member {
            Member::Once(descriptor) => {
                descriptors::drop_descriptor(&mut self.descriptors, descriptor.id);
            }
            Member::Each(queue) => queues::drop_queue(&mut self.queues, queue.id),
        }
    }

    /// The queue head right before this one in its class, which has this level: one class is read.
    pub fn ahead_in_class<L: Ledger>(
        &self,
        level: u8,
        queue: &QueueHead,
        reads: &mut Steps<L>,
    ) -> Option<QueueHead>
    where
        C: CountedBy<L>,
        requires level { level ≤ 10 }
        requires phase { queue.now.phase < 2 ^ level }
        requires class { list_any (λ p. nat_eq queue.now.period p) (periods_of level) ≡ true }
        requires queue { is_queue queue.now ≡ true }
        requires linked { is_linked self.now.schedule (Each queue.now) ≡ true }
        ensures ahead { (others : List Word) → last_of (before_the (Each queue.now) (map Each (members self.now.schedule level queue.now.phase))) others ≡ words_ahead result others }
        ensures kept { IsKept self.now.schedule }
        ensures reads { reads.new ≡ reads.old + 1 }
    {
        reads.take();
        queues::last_ahead(&self.queues, queue.id, lowest_of(level, queue.phase))
    }

    /// The word whose link leads to this descriptor in its frame.
    pub fn word_ahead(&self, descriptor: &Descriptor) -> Predecessor
        requires linked { is_linked self.now.schedule (Once descriptor.now) ≡ true }
        ensures word { result ≡ predecessor self.now.schedule (Once descriptor.now) descriptor.now.frame }
        ensures kept { IsKept self.now.schedule }
    {
        let ahead = descriptors::last_ahead(&self.descriptors, descriptor.id, descriptor.frame);
        word_of(ahead, descriptor.frame)
    }

    /// The word behind all descriptors of a frame.
    pub fn word_in(&self, frame: u16) -> Predecessor
        ensures { result ≡ word_after (InList frame) (map Once (descriptors_in self.now.schedule frame)) }
    {
        word_of(descriptors::last_in(&self.descriptors, frame), frame)
    }

    /// The member right behind this one in its first frame.
    pub fn behind(&self, member: &Member) -> Option<Member>
        requires member { IsMember member.now }
        requires linked { is_linked self.now.schedule member.now ≡ true }
        ensures behind { result ≡ successor self.now.schedule member.now (frame_of member.now) }
        ensures kept { IsKept self.now.schedule }
    {
        match *member {
            Member::Once(descriptor) => {
                let place = descriptors::place_of(&self.descriptors, descriptor.id);
                self.in_frame_from(place + 1, descriptor.frame)
            }
            Member::Each(queue) => {
                let place = queues::place_of(&self.queues, queue.id);
                each(queues::first_from(&self.queues, place + 1, queue.phase))
            }
        }
    }

    /// The member that will be right behind this one in its first frame once it is put in its place.
    pub fn behind_new(&self, member: &Member) -> Option<Member>
        requires member { IsMember member.now }
        requires new { has_name self.now.schedule (id_of member.now) ≡ false }
        ensures behind { result ≡ successor (with_member self.now.schedule member.now) member.now (frame_of member.now) }
        ensures kept { IsKept self.now.schedule }
    {
        match *member {
            Member::Once(descriptor) => {
                let place = descriptors::below(&self.descriptors, descriptor.frame as u32);
                self.in_frame_from(place, descriptor.frame)
            }
            Member::Each(queue) => {
                let place = queues::up_to(&self.queues, rank_of_queue(&queue));
                each(queues::first_from(&self.queues, place, queue.phase))
            }
        }
    }

    /// The descriptor at this place, where it is in this frame, or else the first queue head of the frame.
    fn in_frame_from(&self, place: usize, frame: u16) -> Option<Member>
        ensures { result ≡ first_of_both (find (λ (d : One). nat_eq d.frame frame) (take 1 (drop place self.now.schedule.descriptors))) (find (is_active frame) self.now.schedule.queues) }
    {
        match descriptors::at_place_in(&self.descriptors, place, frame) {
            Some(descriptor) => Some(Member::Once(descriptor)),
            None => each(queues::first_from(&self.queues, 0, frame)),
        }
    }
}

/// The name of a member.
fn name_of(member: &Member) -> u32
    ensures { result ≡ id_of member.now }
{
    match member {
        Member::Once(descriptor) => descriptor.id,
        Member::Each(queue) => queue.id,
    }
}

/// The queue head as a member.
fn each(queue: Option<QueueHead>) -> Option<Member>
    ensures { result ≡ option_map Each queue }
{
    match queue {
        Some(queue) => Some(Member::Each(queue)),
        None => None,
    }
}

/// The word of a frame's descriptor, or where there is none its element.
fn word_of(descriptor: Option<Descriptor>, frame: u16) -> Predecessor
    ensures { result ≡ word_in_frame frame descriptor }
{
    match descriptor {
        Some(descriptor) => Predecessor::After(Member::Once(descriptor)),
        None => Predecessor::Element(frame),
    }
}

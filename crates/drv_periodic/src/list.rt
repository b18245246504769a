ghost use Rattle.std.specs.Prelude.{◌≡◌, ℕ, ◌+◌, ◌%◌, ◌^◌, ◌<◌, ◌≤◌, ◌↔◌, ◌&&◌, true, false, Some, None, IfOk, IfSome, IsSome, IsTrue, is_none, count_by};
ghost use Rattle.drv_chains.specs.Classes.{members};
ghost use Rattle.drv_chains.specs.Chains.{has_name, id_of, successor};
ghost use Rattle.drv_members.specs.Ranks.{is_named};
ghost use Rattle.drv_members.specs.Members.{IsMember, HasRoom, is_member, takes, with_member, frame_of, is_linked};

use crate::start::{start, word_found};
use crate::stores::{finish, link_word, name_of, next_task, store_of};
use crate::work::{Progress, Store, Task, Work};
use bandwidth_steps::{AnyLedger, CountedBy, Steps};
use drv_chains::{Member, QueueHead};
use drv_members::{FrameMembers, may_be_member};
use std::alloc::Global;
use std::marker::{Brand, Model};
use std::sync::ledger::{Blank, Ledger};
use usb_base::Memory;

/// The members of the frame list, and the one that is linked or unlinked. A member's name is the link word that leads to it.
#[derive(Drop)]
pub struct PeriodicList<C = AnyLedger> {
    list: u16,
    members: FrameMembers<C>,
    task: Option<Task>,
}

impl<C> Model for PeriodicList<C> {
    ghost use Rattle.drv_periodic.specs.Periodic.{Periodic};
    ghost use Rattle.drv_periodic.specs.Tasks.{AreTasks, works_of};

    ghost Value = { Periodic };

    ghost view = { λ p. record { list = p.list; members = p.members; work = works_of p.task } };

    ghost invariant = { λ p. AreTasks p.members.schedule p.task };
}

impl PeriodicList {
    ghost use Rattle.drv_periodic.specs.Periodic.{new_list, link_to, next_store, inserting, removing, after_store, progress_of};

    /// A list with no member, which begins in the block `list`, with room for so many queue heads and descriptors.
    ///
    /// # Errors
    ///
    /// `Memory` where they find no room.
    pub fn build(
        alloc: Global,
        list: u16,
        queues: u32,
        descriptors: u32,
    ) -> Result<PeriodicList, Memory>
        ensures { IfOk result (λ p. p ≡ new_list list queues descriptors) }
    {
        Ok(PeriodicList {
            list,
            members: FrameMembers::build(alloc, queues, descriptors)?,
            task: None,
        })
    }

    /// The queue heads of the class of this level and phase, in the order of the chain, each once: those that are linked, and the one that
    /// is linked or unlinked just now.
    pub fn members(&self, level: u8, phase: u16) -> &[QueueHead]
        requires level { level ≤ 10 }
        requires phase { phase < 2 ^ level }
        ensures class { result.now ≡ members self.now.members.schedule level phase }
        ensures once { (id : ℕ) → count_by (is_named id) result.now ≤ 1 }
    {
        self.members.class(level, phase)
    }

    /// Whether a member may be linked: nothing is under way, it is in range, its name is new, and there is room.
    pub fn takes(&self, member: &Member) -> bool
        ensures test { result ≡ (is_none self.now.work && takes self.now.members member.now) }
        ensures idle { IsTrue result → self.now.work ≡ None }
        ensures member { IsTrue result → IsMember member.now }
        ensures new { IsTrue result → has_name self.now.members.schedule (id_of member.now) ≡ false }
        ensures room { IsTrue result → HasRoom self.now.members member.now }
    {
        self.is_idle() && self.members.takes(member)
    }

    /// Whether a member may be unlinked: nothing is under way, and it is linked.
    pub fn may_remove(&self, member: &Member) -> bool
        ensures idle { IsTrue result → self.now.work ≡ None }
        ensures member { IsTrue result → IsMember member.now }
        ensures linked { IsTrue result → is_linked self.now.members.schedule member.now ≡ true }
        ensures test { result ≡ (is_none self.now.work && (is_member member.now && is_linked self.now.members.schedule member.now)) }
    {
        self.is_idle() && may_be_member(member) && self.members.has(member)
    }

    /// Whether nothing is under way.
    pub fn is_idle(&self) -> bool
        ensures { result ≡ is_none self.now.work }
    {
        self.task.is_none()
    }

    /// The link word that a new member must have before it is linked.
    pub fn link_behind(&self, member: &Member) -> u32
        requires member { IsMember member.now }
        requires new { has_name self.now.members.schedule (id_of member.now) ≡ false }
        ensures { result ≡ link_to (successor (with_member self.now.members.schedule member.now) member.now (frame_of member.now)) }
    {
        link_word(self.members.behind_new(member))
    }

    /// The next store; `None` exactly where nothing is under way.
    pub fn next_store(&self) -> Option<Store>
        ensures store { result ≡ next_store self.now }
        ensures aligned { IfSome result (λ s. s.at % 4 ≡ 0) }
        ensures working { IsSome result ↔ IsSome self.now.work }
    {
        match self.task {
            Some(task) => Some(store_of(self.list, task.word, task.value)),
            None => None,
        }
    }

    /// Begins to link a member.
    pub fn begin_insert(&mut self, member: &Member)
        requires idle { self.old.work ≡ None }
        requires member { IsMember member.now }
        requires new { has_name self.old.members.schedule (id_of member.now) ≡ false }
        requires room { HasRoom self.old.members member.now }
        ensures { self.new ≡ inserting self.old member.now }
    {
        self.insert_blank::<Brand>(member, Blank::new(1));
    }

    /// Begins to link a member with a count of its own.
    fn insert_blank<L: Ledger>(&mut self, member: &Member, blank: Blank)
        requires name { blank.name ≡ L.name }
        requires parts { blank.parts ≡ L.parts }
        requires some { 0 < L.parts }
        requires idle { self.old.work ≡ None }
        requires member { IsMember member.now }
        requires new { has_name self.old.members.schedule (id_of member.now) ≡ false }
        requires room { HasRoom self.old.members member.now }
        ensures { self.new ≡ inserting self.old member.now }
    {
        let mut reads = Steps::<L>::begin(blank);
        self.begin_insert_counted(member, &mut reads);
    }

    /// Begins to unlink a member.
    pub fn begin_remove(&mut self, member: &Member)
        requires idle { self.old.work ≡ None }
        requires member { IsMember member.now }
        requires linked { is_linked self.old.members.schedule member.now ≡ true }
        ensures { self.new ≡ removing self.old member.now }
    {
        self.remove_blank::<Brand>(member, Blank::new(1));
    }

    /// Begins to unlink a member with a count of its own.
    fn remove_blank<L: Ledger>(&mut self, member: &Member, blank: Blank)
        requires name { blank.name ≡ L.name }
        requires parts { blank.parts ≡ L.parts }
        requires some { 0 < L.parts }
        requires idle { self.old.work ≡ None }
        requires member { IsMember member.now }
        requires linked { is_linked self.old.members.schedule member.now ≡ true }
        ensures { self.new ≡ removing self.old member.now }
    {
        let mut reads = Steps::<L>::begin(blank);
        self.begin_remove_counted(member, &mut reads);
    }

    /// The next store was made.
    pub fn advance(&mut self) -> Progress
        requires { IsSome self.old.work }
        ensures list { self.new ≡ after_store self.old }
        ensures progress { result ≡ progress_of self.old }
    {
        self.advance_blank::<Brand>(Blank::new(1))
    }

    /// The next store was made, with a count of its own.
    fn advance_blank<L: Ledger>(&mut self, blank: Blank) -> Progress
        requires name { blank.name ≡ L.name }
        requires parts { blank.parts ≡ L.parts }
        requires some { 0 < L.parts }
        requires work { IsSome self.old.work }
        ensures list { self.new ≡ after_store self.old }
        ensures progress { result ≡ progress_of self.old }
    {
        let mut reads = Steps::<L>::begin(blank);
        self.advance_counted(&mut reads)
    }
}

impl<C> PeriodicList<C> {
    ghost use Rattle.drv_periodic.specs.Periodic.{Periodic, inserting, removing, begun, value_of, after_store, progress_of};

    /// As `begin_insert`, in at most eleven readings of classes.
    pub fn begin_insert_counted<L: Ledger>(&mut self, member: &Member, reads: &mut Steps<L>)
    where
        C: CountedBy<L>,
        requires idle { self.old.work ≡ None }
        requires member { IsMember member.now }
        requires new { has_name self.old.members.schedule (id_of member.now) ≡ false }
        requires room { HasRoom self.old.members member.now }
        ensures list { self.new ≡ inserting self.old member.now }
        ensures reads { reads.new ≤ reads.old + 11 }
    {
        self.members.insert(member);
        let value = name_of(member);
        self.begin(member, false, value, reads);
    }

    /// As `begin_remove`, in at most eleven readings of classes.
    pub fn begin_remove_counted<L: Ledger>(&mut self, member: &Member, reads: &mut Steps<L>)
    where
        C: CountedBy<L>,
        requires idle { self.old.work ≡ None }
        requires member { IsMember member.now }
        requires linked { is_linked self.old.members.schedule member.now ≡ true }
        ensures list { self.new ≡ removing self.old member.now }
        ensures reads { reads.new ≤ reads.old + 11 }
    {
        let value = link_word(self.members.behind(member));
        self.begin(member, true, value, reads);
    }

    /// As `advance`, in at most eleven readings of classes.
    pub fn advance_counted<L: Ledger>(&mut self, reads: &mut Steps<L>) -> Progress
    where
        C: CountedBy<L>,
        requires { IsSome self.old.work }
        ensures list { self.new ≡ after_store self.old }
        ensures progress { result ≡ progress_of self.old }
        ensures reads { reads.new ≤ reads.old + 11 }
    {
        let Some(task) = self.task else {
            return Progress::Complete;
        };
        let mut search = task.search;
        match search.next(&self.members, reads) {
            Some(found) => {
                let word = word_found(&self.members, found);
                self.task = Some(next_task(&task, word, search));
                Progress::More
            }
            None => {
                self.task = None;
                finish(&mut self.members, &task.work);
                Progress::Complete
            }
        }
    }

    /// Begins to link or unlink a member that stands in the schedule.
    fn begin<L: Ledger>(&mut self, member: &Member, removes: bool, value: u32, reads: &mut Steps<L>)
    where
        C: CountedBy<L>,
        requires idle { self.old.work ≡ None }
        requires member { IsMember member.now }
        requires linked { is_linked self.old.members.schedule member.now ≡ true }
        requires value { value ≡ value_of self.old.members.schedule (begun member.now removes) }
        ensures list { self.new ≡ record self.old { work = Some (begun member.now removes) } }
        ensures reads { reads.new ≤ reads.old + 11 }
    {
        let start = start(&self.members, member, reads);
        let work = Work {
            member: *member,
            removes,
            made: 0,
        };
        self.task = Some(Task {
            work,
            value,
            word: start.word,
            search: start.search,
        });
    }
}

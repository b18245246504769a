ghost use Rattle.std.specs.Prelude.{◌≡◌, ◌<◌, ◌%◌, [], ◌∷◌, ◌++◌, length, is_none, IfSome};
ghost use Rattle.drv_periodic.specs.Periodic.{next_store, after_store};
ghost use Rattle.drv_periodic_table.specs.Periodic.{descriptor_name, descriptor_member, queue_member};
ghost use Rattle.drv_periodic_table.specs.Linking.{new_link, linking, unlinking, begun, begun_next};
ghost use Rattle.drv_frames_content.specs.Part.{with_periodic, with_list, with_queued};

use crate::part::PeriodicPart;
use bandwidth::Placement;
use drv_chains::{Descriptor, Member, QueueHead};
use drv_periodic::{PeriodicList, Store};
use drv_periodic_table::DescriptorNote;

/// The queue head in this block as a member of the frame list.
fn member_in(queue: u16, placement: &Placement) -> Member
    ensures { result ≡ queue_member queue placement.now }
{
    Member::Each(QueueHead {
        id: 32 * queue as u32 + 2,
        period: placement.period,
        phase: placement.phase,
    })
}

/// The name of the descriptor in this block, the word of a link to it (EHCI 1.0, 3.3.1 and 3.4.1).
fn name_of(note: &DescriptorNote, block: u16) -> u32
    ensures { result ≡ descriptor_name note.now block }
{
    if note.split {
        return 32 * block as u32 + 4;
    }
    32 * block as u32
}

/// The link word that a new member has before it is linked. A member whose block was just taken may always be linked.
fn new_link(list: &PeriodicList, member: &Member) -> u32
    ensures { result ≡ new_link list.now member.now }
{
    if list.takes(member) {
        return list.link_behind(member);
    }
    1
}

/// Begins to link a member, where it may be linked.
fn begin_link(list: &mut PeriodicList, member: &Member)
    ensures { list.new ≡ linking list.old member.now }
{
    if list.takes(member) {
        list.begin_insert(member);
    }
}

/// Begins to unlink a member, where it may be unlinked.
fn begin_unlink(list: &mut PeriodicList, member: &Member)
    ensures { list.new ≡ unlinking list.old member.now }
{
    if list.may_remove(member) {
        list.begin_remove(member);
    }
}

impl PeriodicPart {
    /// The link word that the queue head in this block has before it is linked.
    pub fn queue_link(&self, queue: u16, placement: &Placement) -> u32
        ensures { result ≡ new_link self.now.periodic.list (queue_member queue placement.now) }
    {
        new_link(&self.list, &member_in(queue, placement))
    }

    /// Begins to link the queue head in this block.
    pub fn link_queue(&mut self, queue: u16, placement: &Placement)
        ensures { self.new ≡ with_list self.old (linking self.old.periodic.list (queue_member queue placement.now)) }
    {
        begin_link(&mut self.list, &member_in(queue, placement));
    }

    /// The queue head in this block is the one member that the command is to unlink.
    pub fn push_queue(&mut self, queue: u16, placement: &Placement)
        requires room { length self.old.periodic.queued < self.old.queued_room }
        ensures { self.new ≡ with_queued self.old (self.old.periodic.queued ++ queue_member queue placement.now ∷ []) }
    {
        self.queued.push_back_reserved(member_in(queue, placement));
    }

    /// The descriptor in this block as a member of the frame list.
    fn descriptor(&self, block: u16) -> Member
        ensures { result ≡ descriptor_member self.now.periodic.notes block }
    {
        let note = self.note(block);
        Member::Once(Descriptor {
            id: name_of(&note, block),
            frame: note.frame,
        })
    }

    /// The link word that the descriptor in this block has before it is linked.
    pub fn descriptor_link(&self, block: u16) -> u32
        ensures { result ≡ new_link self.now.periodic.list (descriptor_member self.now.periodic.notes block) }
    {
        new_link(&self.list, &self.descriptor(block))
    }

    /// The descriptor in this block is one more member that the command is to link or unlink.
    pub fn push_descriptor(&mut self, block: u16)
        requires room { length self.old.periodic.queued < self.old.queued_room }
        ensures { self.new ≡ with_queued self.old (self.old.periodic.queued ++ descriptor_member self.old.periodic.notes block ∷ []) }
    {
        let member = self.descriptor(block);
        self.queued.push_back_reserved(member);
    }

    /// No command has members to link or unlink.
    pub fn clear_queued(&mut self)
        ensures { self.new ≡ with_queued self.old [] }
    {
        self.queued.clear();
    }

    /// Begins to link or unlink the command's next member, where nothing is under way.
    pub fn begin_next(&mut self, removes: bool)
        ensures { self.new ≡ with_periodic self.old (begun_next removes self.old.periodic) }
    {
        if !self.list.is_idle() {
            return;
        }
        match self.queued.pop_front() {
            Some(member) => self.begin(removes, &member),
            None => {}
        }
    }

    fn begin(&mut self, removes: bool, member: &Member)
        ensures { self.new ≡ with_list self.old (begun removes self.old.periodic.list member.now) }
    {
        if removes {
            return begin_unlink(&mut self.list, member);
        }
        begin_link(&mut self.list, member);
    }

    /// Begins to unlink the descriptor in this block.
    pub fn unlink_descriptor(&mut self, block: u16)
        ensures { self.new ≡ with_list self.old (unlinking self.old.periodic.list (descriptor_member self.old.periodic.notes block)) }
    {
        let member = self.descriptor(block);
        begin_unlink(&mut self.list, &member);
    }

    /// Whether nothing is linked or unlinked just now.
    pub fn is_idle(&self) -> bool
        ensures { result ≡ is_none self.now.periodic.list.work }
    {
        self.list.is_idle()
    }

    /// The next store of the frame list.
    pub fn next_store(&self) -> Option<Store>
        ensures store { result ≡ next_store self.now.periodic.list }
        ensures aligned { IfSome result (λ s. s.at % 4 ≡ 0) }
    {
        self.list.next_store()
    }

    /// The next store of the frame list was made.
    pub fn store_made(&mut self)
        ensures { self.new ≡ with_list self.old (after_store self.old.periodic.list) }
    {
        if !self.list.is_idle() {
            self.list.advance();
        }
    }
}

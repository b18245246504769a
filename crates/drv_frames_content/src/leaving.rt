ghost use Rattle.std.specs.Prelude.{◌≡◌, ◌≤◌, ◌<◌, ◌+◌, [], ◌∷◌, ◌++◌, drop, length, map, slice_get, slice_set, Some, nat_lt};
ghost use Rattle.drv_chains.specs.declared.boundary.Boundary.TheVariants.{Unread};
ghost use Rattle.drv_periodic_table.specs.Periodic.{read_again, read_once};
ghost use Rattle.std.specs.VecDeque.{deque_capacity};
ghost use Rattle.drv_frames_content.specs.Part.{with_periodic, with_removals};

use crate::part::PeriodicPart;
use drv_chains::Boundary;
use drv_periodic_table::{Removal, Removed};
use std::collections::VecDeque;

impl PeriodicPart {
    /// The first harvested descriptor that is still linked, by its transfer.
    pub fn first_unlink(&self) -> Option<usize>
        ensures { result ≡ slice_get self.now.periodic.unlinks 0 }
    {
        match self.unlinks.front() {
            Some(t) => Some(*t),
            None => None,
        }
    }

    /// One more harvested descriptor is to be unlinked.
    pub fn push_unlink(&mut self, t: usize)
        requires room { length self.old.periodic.unlinks < self.old.unlink_room }
        ensures { self.new ≡ with_periodic self.old (record self.old.periodic { unlinks = self.old.periodic.unlinks ++ t ∷ [] }) }
    {
        self.unlinks.push_back_reserved(t);
    }

    /// The first of them was unlinked.
    pub fn pop_unlink(&mut self)
        ensures { self.new ≡ with_periodic self.old (record self.old.periodic { unlinks = drop 1 self.old.periodic.unlinks }) }
    {
        self.unlinks.pop_front();
    }

    /// What left the chains first of all that isn't given back.
    pub fn first_removal(&self) -> Option<Removal>
        ensures { result ≡ slice_get self.now.periodic.removals 0 }
    {
        match self.removals.front() {
            Some(removal) => Some(*removal),
            None => None,
        }
    }

    /// Whether something that left the chains isn't given back.
    pub fn removes(&self) -> bool
        ensures { result ≡ nat_lt 0 (length self.now.periodic.removals) }
    {
        !self.removals.is_empty()
    }

    /// This left the chains: its last unlinking store was made.
    pub fn push_removal(&mut self, what: Removed)
        requires room { length self.old.periodic.removals < self.old.removal_room }
        ensures { self.new ≡ with_removals self.old (self.old.periodic.removals ++ (record { what = what; boundary = Unread }) ∷ []) }
    {
        self.removals.push_back_reserved(Removal {
            what,
            boundary: Boundary::Unread,
        });
    }

    /// What left first is given back.
    pub fn pop_removal(&mut self)
        ensures { self.new ≡ with_removals self.old (drop 1 self.old.periodic.removals) }
    {
        self.removals.pop_front();
    }

    /// FRINDEX was read.
    pub fn read(&mut self, frindex: u16)
        ensures { self.new ≡ with_removals self.old (read_again frindex self.old.periodic.removals) }
    {
        read_each(&mut self.removals, frindex);
    }

    /// Whether USBSTS is read next, where both registers are waited for.
    pub fn reads_status(&self) -> bool
        ensures { result ≡ self.now.periodic.status_next }
    {
        self.status_next
    }

    /// Whether USBSTS is read next.
    pub fn set_reads_status(&mut self, next: bool)
        ensures { self.new ≡ with_periodic self.old (record self.old.periodic { status_next = next }) }
    {
        self.status_next = next;
    }
}

/// FRINDEX was read, for each of these.
fn read_each(removals: &mut VecDeque<Removal>, frindex: u16)
    ensures items { removals.new.items ≡ read_again frindex removals.old.items }
    ensures capacity { deque_capacity removals.new ≡ deque_capacity removals.old }
{
    for i in 0..removals.len() {
        read_at(removals, i, frindex);
    }
}

/// FRINDEX was read, for the one of this number.
fn read_at(removals: &mut VecDeque<Removal>, i: usize, frindex: u16)
    ensures items { (r : Removal) → slice_get removals.old.items i ≡ Some r → removals.new.items ≡ slice_set removals.old.items i (read_once frindex r) }
    ensures capacity { deque_capacity removals.new ≡ deque_capacity removals.old }
{
    if let Some(removal) = removals.get_mut(i) {
        removal.boundary.read(frindex);
    }
}

ghost use Rattle.std.specs.Prelude.{◌≡◌, ◌≤◌, ◌<◌, ◌+◌, length, false, IfOk, IfSome, IfNone, Some, Ok, Err};
ghost use Rattle.bandwidth.specs.Placements.{IsWant};
ghost use Rattle.bandwidth.specs.declared.placements.Refused.{Refused as Why};
ghost use Rattle.bandwidth.specs.Admission.{answer, is_placed, without};
ghost use Rattle.drv_periodic_table.specs.Periodic.{new_periodic, want_of, dir_of, is_periodic};
ghost use Rattle.drv_frames_content.specs.Part.{with_place, with_periodic};

use bandwidth::{Placement, Plan, Want};
use drv_chains::Member;
use drv_periodic::PeriodicList;
use drv_periodic_table::{DescriptorNote, Removal};
use std::alloc::Global;
use std::collections::VecDeque;
use std::marker::Model;
use usb_base::{Dir, EpDesc, EpKind, Memory, Rules, Way};

/// Nothing known of a descriptor.
pub(crate) const NO_DESCRIPTOR: DescriptorNote = DescriptorNote {
    frame: 0,
    split: false,
    smask: 0,
    cmask: 0,
    slot: 0,
    buffer: [0; 6],
    runs: 0,
};

/// The block in which the frame list begins.
const FRAME_LIST: u16 = 0;

/// The periodic part of a driver.
#[derive(Drop)]
pub struct PeriodicPart {
    pub(crate) plan: Plan,
    pub(crate) list: PeriodicList,
    pub(crate) queued: VecDeque<Member>,
    pub(crate) notes: Vec<DescriptorNote>,
    pub(crate) unlinks: VecDeque<usize>,
    pub(crate) removals: VecDeque<Removal>,
    pub(crate) status_next: bool,
}

impl Model for PeriodicPart {
    ghost use Rattle.std.specs.VecDeque.{deque_capacity};
    ghost use Rattle.drv_frames_content.specs.Part.{Held};

    ghost Value = { Held };

    ghost view = { λ p. record {
      periodic = record {
        plan = p.plan;
        list = p.list;
        queued = p.queued.items;
        notes = p.notes.items;
        unlinks = p.unlinks.items;
        removals = p.removals.items;
        status_next = p.status_next;
      };
      queued_room = deque_capacity p.queued;
      unlink_room = deque_capacity p.unlinks;
      removal_room = deque_capacity p.removals;
    } };
}

/// Whether an endpoint of this kind has a place in the frame list.
pub fn is_in_frames(kind: EpKind) -> bool
    ensures { result ≡ is_periodic kind }
{
    match kind {
        EpKind::Interrupt | EpKind::Iso => true,
        EpKind::Bulk | EpKind::Control => false,
    }
}

/// The direction of a way.
fn direction(way: Way) -> Dir
    ensures { result ≡ dir_of way }
{
    match way {
        Way::In => Dir::In,
        Way::Out | Way::Ctl => Dir::Out,
    }
}

/// What an endpoint of this number asks of the plan.
fn want(e: u32, desc: &EpDesc) -> Want
    ensures { result ≡ want_of e desc.now }
{
    Want {
        id: e,
        speed: desc.speed,
        kind: desc.kind,
        dir: direction(desc.name.way),
        max: desc.max,
        multi: desc.multi,
        period: desc.period,
        hub: desc.hub,
        tt: desc.tt,
    }
}

impl PeriodicPart {
    /// A part with nothing in it, for a memory of so many blocks, with room for so many endpoints and descriptors, placed by these rules.
    ///
    /// # Errors
    ///
    /// `Memory` where it finds no room.
    pub fn build(
        alloc: Global,
        blocks: u32,
        endpoints: u32,
        transfers: u32,
        rules: Rules,
    ) -> Result<PeriodicPart, Memory>
        ensures none { IfOk result (λ h. h.periodic ≡ new_periodic blocks endpoints transfers rules) }
        ensures queued { IfOk result (λ h. transfers + 1 ≤ h.queued_room) }
        ensures unlinks { IfOk result (λ h. transfers ≤ h.unlink_room) }
        ensures removals { IfOk result (λ h. endpoints + transfers ≤ h.removal_room) }
    {
        let waiting = transfers as usize;
        let removals = endpoints as usize + waiting;
        Ok(PeriodicPart {
            plan: Plan::build(alloc, endpoints, rules)?,
            list: PeriodicList::build(alloc, FRAME_LIST, endpoints, transfers)?,
            queued: VecDeque::with_capacity(alloc, waiting + 1)?,
            notes: vec![in alloc; NO_DESCRIPTOR; blocks as usize]?,
            unlinks: VecDeque::with_capacity(alloc, waiting)?,
            removals: VecDeque::with_capacity(alloc, removals)?,
            status_next: true,
        })
    }

    /// What is placed, with its loads.
    pub fn plan(&self) -> &Plan
        ensures { result.now ≡ self.now.periodic.plan }
    {
        &self.plan
    }

    /// The placement that the plan gives to the endpoint of this number, so described; `None` where every allowed placement breaks a budget.
    pub fn admit(&mut self, e: u32, desc: &EpDesc) -> Option<Placement>
        requires fresh { is_placed self.old.periodic.plan e ≡ false }
        requires room { length self.old.periodic.plan.placed < self.old.periodic.plan.room }
        requires want { IsWant (want_of e desc.now) }
        ensures placed { IfSome result (λ p. (answer self.old.periodic.plan (want_of e desc.now) ≡ Ok p) × (self.new ≡ with_place self.old e desc.now p)) }
        ensures refused { IfNone result ((why : Why) × (answer self.old.periodic.plan (want_of e desc.now) ≡ Err why)) }
        ensures same { IfNone result (self.new ≡ self.old) }
    {
        self.plan.admit(&want(e, desc)).ok()
    }

    /// The endpoint of this number has no placement any more.
    pub fn withdraw(&mut self, e: u32)
        ensures { self.new ≡ with_periodic self.old (record self.old.periodic { plan = without self.old.periodic.plan e }) }
    {
        self.plan.remove(e);
    }
}

//! Asks a plan and the sums of a list for the same drawn endpoints, takes others out between, and counts where the two differ.
ghost use Rattle.std.specs.Prelude.{◌≡◌, ◌<◌, length, slice_index};
ghost use Rattle.bandwidth.specs.Placements.{IsWant};

use crate::draws::{Draws, FIRST_RULES, any_want};
use crate::sums::Sums;
use bandwidth::{Placement, Plan, Refused, Table, Want};
use bandwidth_steps::Steps;
use std::alloc::{AllocError, Global};
use std::marker::Brand;
use std::sync::ledger::{Blank, Ledger};
use usb_base::Memory;

/// How many endpoints were placed, how many found no placement and how many no room, how many were taken out, and how often the two
/// differed.
#[derive(Clone, Copy)]
struct Tally {
    placed: u32,
    no_placement: u32,
    no_room: u32,
    removed: u32,
    differences: u32,
}

impl Tally {
    fn count(&mut self, answer: &Result<Placement, Refused>) {
        match answer {
            Ok(_) => self.placed = self.placed.saturating_add(1),
            Err(Refused::NoPlacement) => self.no_placement = self.no_placement.saturating_add(1),
            Err(Refused::Room) => self.no_room = self.no_room.saturating_add(1),
        }
    }

    fn agree(&mut self, same: bool) {
        if !same {
            self.differences = self.differences.saturating_add(1);
        }
    }
}

/// A plan, and the sums of a list that is to be the same.
#[derive(Drop)]
struct Pair {
    plan: Plan,
    sums: Sums,
    tally: Tally,
}

/// Reads a cell with a count of its own.
fn cell<L: Ledger>(table: &Table, at: u32, blank: Blank) -> u64
    requires name { blank.name ≡ L.name }
    requires parts { blank.parts ≡ L.parts }
    requires some { 0 < L.parts }
    requires cell { at < length table.now }
    ensures { result ≡ slice_index table.now at }
{
    let mut steps = Steps::<L>::begin(blank);
    table.get(at, &mut steps)
}

impl Pair {
    fn build(alloc: Global, room: u32) -> Result<Pair, Memory> {
        let plan = Plan::build(alloc, room, FIRST_RULES)?;
        let sums = Sums::build(alloc, room)?;
        Ok(Pair {
            plan,
            sums,
            tally: Tally {
                placed: 0,
                no_placement: 0,
                no_room: 0,
                removed: 0,
                differences: 0,
            },
        })
    }

    /// Takes out an endpoint where it is placed.
    fn remove(&mut self, id: u32) {
        if self.plan.has(id) {
            self.tally.removed = self.tally.removed.saturating_add(1);
        }
        let same = self.plan.remove(id) == self.sums.remove(id);
        self.tally.agree(same);
    }

    /// Asks for an endpoint.
    fn admit(&mut self, want: &Want)
        requires { IsWant want.now }
    {
        if self.plan.has(want.id) {
            self.tally.agree(false);
            return;
        }
        let answer = self.plan.admit(want);
        let same = answer == self.sums.admit(want);
        self.tally.agree(same);
        self.tally.count(&answer);
    }

    /// Reads microframe `u`, and below the hub of an endpoint, if it has one and is placed, the frame and the translator's microframe.
    fn read(&mut self, want: &Want, u: u16)
        requires { u < 8192 }
    {
        self.sums.sum(want.hub);
        let (load, time, bytes) = self.sums.cells(u as u32);
        self.tally.agree(self.plan.load(u).0 == load);
        if let Some(table) = self.plan.frame_sums(want.id) {
            self.tally
                .agree(cell::<Brand>(table, u as u32 / 8, Blank::new(1)) == time);
        }
        if let Some(table) = self.plan.byte_sums(want.id) {
            self.tally
                .agree(cell::<Brand>(table, u as u32, Blank::new(1)) == bytes);
        }
    }
}

/// Asks for drawn endpoints under so many ids, each after what had its id is taken out.
fn tally_of(alloc: Global, seed: u32, wants: u32, room: u32, ids: u32) -> Result<Tally, Memory> {
    let mut draws = Draws::new(seed);
    let mut pair = Pair::build(alloc, room)?;
    for _k in 0..wants {
        let id = draws.draw() % ids.max(1);
        pair.remove(id);
        let want = any_want(id, &mut draws);
        pair.admit(&want);
        pair.read(&want, (draws.draw() % 8192) as u16);
    }
    Ok(pair.tally)
}

/// What the comparison of so many drawn endpoints gives.
pub(crate) fn describe(
    alloc: Global,
    seed: u32,
    wants: u32,
    room: u32,
    ids: u32,
) -> Result<String, AllocError> {
    match tally_of(alloc, seed, wants, room, ids) {
        Ok(t) => format!(in alloc;
            "placed {} no placement {} no room {} removed {} differences {}",
            t.placed, t.no_placement, t.no_room, t.removed, t.differences
        ),
        Err(Memory) => format!(in alloc; "no memory"),
    }
}

ghost use Rattle.std.specs.Prelude.{◌≡◌, ℕ, ◌+◌, ◌/◌, ◌%◌, ◌<◌, ◌≤◌, ◌↔◌, false, true, List, [], length, slice_index, Some, None, IfOk, IfSome, Result};
ghost use Rattle.std.specs.Bool.{OnTrue, OnFalse};
ghost use Rattle.usb_base.specs.Limits.{frame_list_length};
ghost use Rattle.bandwidth.specs.declared.placements.Refused.TheVariants.{NoPlacement, Room};
ghost use Rattle.bandwidth.specs.Placements.{IsWant, is_slack_from, placement_row};
ghost use Rattle.bandwidth.specs.Sums.{Fits, load, frame_sum, tt_sum};
ghost use Rattle.bandwidth.specs.Admission.{answer, admitted, is_placed, translator_in, without, AreDistinct, HasNone, IsBest};

use crate::accounts::Accounts;
use crate::asks::translator_for;
use crate::masks::first_bit;
use crate::options::is_slack;
use crate::placements::{Placement, Refused, Want};
use crate::search::best_placement;
use crate::shapes::shapes_of;
use crate::table::Table;
use crate::translators::Translator;
use bandwidth_steps::{AnyLedger, CountedBy, Steps};
use std::alloc::Global;
use std::marker::{Brand, Model};
use std::sync::ledger::{Blank, Ledger};
use usb_base::{Memory, Ps, Rules};

/// The periodic endpoints that are placed, in the order of admission, how many may be, and what the placements follow. What is placed
/// keeps every budget, and no two have one id.
#[derive(Debug, Drop)]
pub struct Plan<C = AnyLedger> {
    accounts: Accounts<C>,
    rules: Rules,
}

impl<C> Model for Plan<C> {
    ghost use Rattle.bandwidth.specs.Admission.{Admissions};

    ghost Value = { Admissions };

    ghost view = { λ p. record { placed = p.accounts.placed; room = p.accounts.room; rules = p.rules } };
}

impl Plan {
    /// An empty plan with room for so many endpoints, each of which is placed by these rules. Nothing else takes memory.
    pub fn build(alloc: Global, room: u32, rules: Rules) -> Result<Plan, Memory>
        ensures { IfOk result (λ p. p ≡ record { placed = []; room = room; rules = rules }) }
    {
        let accounts = Accounts::build(alloc, room)?;
        Ok(Plan { accounts, rules })
    }

    /// Places an endpoint where it keeps every budget with the least greatest microframe sum, the first of these by phase and
    /// first microframe. A refusal changes nothing.
    ///
    /// `Room` comes exactly where as many are placed as there is room for, `NoPlacement` exactly where there is room and every
    /// allowed placement breaks a budget.
    pub fn admit(&mut self, want: &Want) -> Result<Placement, Refused>
        requires fresh { is_placed self.old want.now.id ≡ false }
        requires want { IsWant want.now }
        ensures answer { result ≡ answer self.old want.now }
        ensures plan { self.new ≡ admitted self.old want.now result }
        ensures room { (result ≡ Err Room) ↔ (length self.old.placed ≡ self.old.room) }
        ensures no_placement { (result ≡ Err NoPlacement) ↔ ((length self.old.placed < self.old.room) × HasNone self.old.rules self.old.placed want.now) }
        ensures placed { IfOk result (λ p. IsBest self.old.rules self.old.placed want.now p) }
        ensures fits { Fits self.new.placed }
    {
        self.admit_blank::<Brand>(want, Blank::new(1))
    }

    /// Admits with a counter of its own.
    fn admit_blank<L: Ledger>(&mut self, want: &Want, blank: Blank) -> Result<Placement, Refused>
        requires name { blank.name ≡ L.name }
        requires parts { blank.parts ≡ L.parts }
        requires some { 0 < L.parts }
        requires fresh { is_placed self.old want.now.id ≡ false }
        requires want { IsWant want.now }
        ensures answer { result ≡ answer self.old want.now }
        ensures plan { self.new ≡ admitted self.old want.now result }
        ensures room { (result ≡ Err Room) ↔ (length self.old.placed ≡ self.old.room) }
        ensures no_placement { (result ≡ Err NoPlacement) ↔ ((length self.old.placed < self.old.room) × HasNone self.old.rules self.old.placed want.now) }
        ensures placed { IfOk result (λ p. IsBest self.old.rules self.old.placed want.now p) }
        ensures fits { Fits self.new.placed }
    {
        let mut steps = Steps::<L>::begin(blank);
        self.admit_counted(want, &mut steps)
    }
}

impl<C> Plan<C> {
    /// As `admit`, in at most 40,960 readings and writings of cells of the tables, whatever number is placed. Each is counted on the
    /// ledger that is handed down: no other may count those of the tables.
    pub fn admit_counted<L: Ledger>(
        &mut self,
        want: &Want,
        steps: &mut Steps<L>,
    ) -> Result<Placement, Refused>
    where
        C: CountedBy<L>,
        requires fresh { is_placed self.old want.now.id ≡ false }
        requires want { IsWant want.now }
        ensures answer { result ≡ answer self.old want.now }
        ensures plan { self.new ≡ admitted self.old want.now result }
        ensures room { (result ≡ Err Room) ↔ (length self.old.placed ≡ self.old.room) }
        ensures no_placement { (result ≡ Err NoPlacement) ↔ ((length self.old.placed < self.old.room) × HasNone self.old.rules self.old.placed want.now) }
        ensures placed { IfOk result (λ p. IsBest self.old.rules self.old.placed want.now p) }
        ensures fits { Fits self.new.placed }
        ensures steps { steps.new ≤ steps.old + 40960 }
    {
        if self.accounts.is_full() {
            return Err(Refused::Room);
        }
        let shapes = shapes_of(want);
        match best_placement(&self.accounts, self.rules, want, &shapes, steps) {
            Some(placement) => {
                let first = first_bit(placement.smask);
                self.accounts
                    .join(want, &placement, &shapes[first as usize], steps);
                Ok(placement)
            }
            None => Err(Refused::NoPlacement),
        }
    }
}

impl Plan {
    /// Takes out the endpoint with this id; false exactly where it isn't placed, and then nothing changes.
    pub fn remove(&mut self, id: u32) -> bool
        ensures found { result ≡ is_placed self.old id }
        ensures plan { self.new ≡ without self.old id }
        ensures one { OnTrue result (length self.new.placed + 1 ≡ length self.old.placed) }
        ensures same { OnFalse result (self.new ≡ self.old) }
    {
        if !self.has(id) {
            return false;
        }
        self.accounts.remove(id);
        true
    }

    /// The bus time of the periodic transactions of microframe `u`, at most 100,000,000 ps.
    pub fn load(&self, u: u16) -> Ps
        requires { u < 8192 }
        ensures load { result.0 ≡ load self.now.placed u }
        ensures fits { Fits self.now.placed }
    {
        Ps(cell::<Brand>(self.accounts.loads(), u as u32, Blank::new(1)))
    }

    /// The bus time of the periodic transactions of each of the 8,192 microframes, in picoseconds.
    pub fn loads(&self) -> &Table
        ensures cells { length result.now ≡ 8192 }
        ensures sums { (u : ℕ) → u < 8192 → slice_index result.now u ≡ load self.now.placed u }
    {
        self.accounts.loads()
    }

    /// The classic bus time of each of the 1,024 frames below the translator of a placement, in picoseconds; `None` exactly where the
    /// id isn't placed or no translator serves its endpoint.
    pub fn frame_sums(&self, id: u32) -> Option<&Table>
        ensures none { (result ≡ None) ↔ (translator_in self.now.placed id ≡ None) }
        ensures cells { IfSome result (λ t. length t.now ≡ frame_list_length) }
        ensures sums { IfSome result (λ t. (n f : ℕ) → translator_in self.now.placed id ≡ Some n → f < frame_list_length → slice_index t.now f ≡ frame_sum self.now.placed (n / 16) (n % 16) f) }
    {
        let translator = self.translator(id)?;
        match self.accounts.below(translator) {
            Some(sums) => Some(&sums.frames),
            None => None,
        }
    }

    /// The byte-times of each of the 8,192 microframes in the translator of a placement; `None` exactly where the id isn't placed or no
    /// translator serves its endpoint.
    pub fn byte_sums(&self, id: u32) -> Option<&Table>
        ensures none { (result ≡ None) ↔ (translator_in self.now.placed id ≡ None) }
        ensures cells { IfSome result (λ t. length t.now ≡ 8192) }
        ensures sums { IfSome result (λ t. (n u : ℕ) → translator_in self.now.placed id ≡ Some n → u < 8192 → slice_index t.now u ≡ tt_sum self.now.placed (n / 16) (n % 16) u) }
    {
        let translator = self.translator(id)?;
        match self.accounts.below(translator) {
            Some(sums) => Some(&sums.bytes),
            None => None,
        }
    }

    /// The translator of a placement.
    fn translator(&self, id: u32) -> Option<Translator>
        ensures { result ≡ translator_in self.now.placed id }
    {
        for x in self.accounts.placed() {
            if x.want.id == id {
                return translator_for(&x.want);
            }
        }
        None
    }

    /// Whether a placement of this endpoint from a first microframe on leaves the translator time for stuffed bits.
    pub fn is_slack(&self, want: &Want, first: u8) -> bool
        requires want { IsWant want.now }
        requires first { first < (placement_row want.now).starts }
        ensures { result ≡ is_slack_from self.now.rules want.now first }
    {
        is_slack(self.rules, want, first)
    }

    /// Whether an endpoint with this id is placed.
    pub fn has(&self, id: u32) -> bool
        ensures found { result ≡ is_placed self.now id }
        ensures ids { AreDistinct self.now.placed }
    {
        self.accounts.placed().iter().any(|x| x.want.id == id)
    }
}

/// Reads a cell with a counter of its own.
fn cell<L: Ledger>(table: &Table, at: u32, blank: Blank) -> u64
    requires name { blank.name ≡ L.name }
    requires parts { blank.parts ≡ L.parts }
    requires some { 0 < L.parts }
    requires cell { at < length table.now }
    ensures { result ≡ slice_index table.now at }
{
    let mut steps = Steps::<L>::begin(blank);
    table.get(at, &mut steps)
}

ghost use Rattle.std.specs.Prelude.{◌≡◌, ◌+◌, ◌-◌, ◌*◌, ◌≤◌, slice_index, IfOk, IsTrue, ◌↔◌};
ghost use Rattle.bandwidth.specs.Placements.{IsPlace};
ghost use Rattle.bandwidth.specs.Shapes.{turns, IsAmounts};

use crate::limits::{frames_fit, microframes_fit};
use crate::placements::Placement;
use crate::shapes::Amounts;
use crate::table::Table;
use crate::tables::{add_frames, add_microframes, sub_frames, sub_microframes};
use bandwidth_steps::{AnyLedger, CountedBy, Steps};
use std::alloc::Global;
use std::marker::Model;
use std::sync::ledger::Ledger;
use usb_base::Memory;
use usb_base::limits::{BYTE_TIMES_OF_MICROFRAME, FRAME_BUDGET, FRAME_LIST_LENGTH};

/// The tables of one translator: the classic bus time of each of the 1,024 frames, in picoseconds, and the byte-times of each of the 8,192
/// microframes.
#[derive(Debug, Drop)]
pub(crate) struct HubSums<C = AnyLedger> {
    pub(crate) frames: Table<C>,
    pub(crate) bytes: Table<C>,
}

impl<C> Model for HubSums<C> {
    ghost use Rattle.bandwidth.specs.Tables.{HubTables};

    ghost Value = { HubTables };

    ghost view = { λ h. record { frames = h.frames; bytes = h.bytes } };
}

impl HubSums {
    ghost use Rattle.bandwidth.specs.Tables.{AreZero};

    /// Tables whose cells are all 0.
    pub(crate) fn zeros(alloc: Global) -> Result<HubSums, Memory>
        ensures { IfOk result (λ h. AreZero h) }
    {
        let frames = Table::zeros(alloc, FRAME_LIST_LENGTH as usize)?;
        let bytes = Table::zeros(alloc, 8192)?;
        Ok(HubSums { frames, bytes })
    }
}

impl<C> HubSums<C> {
    ghost use Rattle.bandwidth.specs.Tables.{AreWithin, Adds};

    /// Adds a placement with so much classic time in each frame, and these byte-times.
    pub(crate) fn add<L: Ledger>(
        &mut self,
        placement: &Placement,
        time: u64,
        bytes: &Amounts,
        steps: &mut Steps<L>,
    )
    where
        C: CountedBy<L>,
        requires within { AreWithin self.old }
        requires place { IsPlace placement.now }
        requires time { time ≤ 1000000000000 }
        requires bytes { IsAmounts bytes.now }
        ensures sums { Adds time (slice_index bytes.now.each) placement.now self.old self.new }
        ensures steps { steps.new ≤ steps.old + turns placement.now.period * (bytes.now.to - bytes.now.from + 1) }
    {
        add_frames(&mut self.frames, placement, time, steps);
        add_microframes(&mut self.bytes, placement, bytes, steps);
    }
}

impl HubSums {
    ghost use Rattle.bandwidth.specs.Tables.{AreCells, Adds, Holds};

    /// Takes out a placement with so much classic time in each frame, and these byte-times.
    pub(crate) fn sub(&mut self, placement: &Placement, time: u64, bytes: &[u64; 8])
        requires place { IsPlace placement.now }
        requires holds { Holds time (slice_index bytes.now) placement.now self.old }
        ensures sums { Adds time (slice_index bytes.now) placement.now self.new self.old }
        ensures cells { AreCells self.new }
    {
        sub_frames(&mut self.frames, placement, time);
        sub_microframes(&mut self.bytes, placement, bytes);
    }
}

impl<C> HubSums<C> {
    ghost use Rattle.bandwidth.specs.Tables.{AreWithin, BelowFits};

    /// Whether a placement keeps the budgets of frames and of byte-times.
    #[inline(always)]
    pub(crate) fn keep<L: Ledger>(
        &self,
        placement: &Placement,
        time: u64,
        bytes: &Amounts,
        steps: &mut Steps<L>,
    ) -> bool
    where
        C: CountedBy<L>,
        requires within { AreWithin self.now }
        requires place { IsPlace placement.now }
        requires time { time ≤ 1000000000000 }
        requires bytes { IsAmounts bytes.now }
        ensures fits { IsTrue result ↔ BelowFits self.now time (slice_index bytes.now.each) placement.now }
        ensures steps { steps.new ≤ steps.old + turns placement.now.period * (bytes.now.to - bytes.now.from + 1) }
    {
        if !frames_fit(&self.frames, placement, time, FRAME_BUDGET, steps) {
            return false;
        }
        microframes_fit(
            &self.bytes,
            placement,
            bytes,
            BYTE_TIMES_OF_MICROFRAME as u64,
            steps,
        )
    }
}

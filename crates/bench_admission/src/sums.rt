//! Admission with no table that is kept up: for each endpoint that asks every sum is made anew from the list of what is placed.
ghost use Rattle.std.specs.Prelude.{IfOk};

use crate::spots::{costs_of, frames_of, laid_of, placement_of, starts_of, time_of};
use bandwidth::{Placed, Placement, Refused, Want};
use std::alloc::Global;
use usb_base::limits::{BYTE_TIMES_OF_MICROFRAME, FRAME_BUDGET, MICROFRAME_BUDGET};
use usb_base::{DevAddr, Memory};

/// What is placed, and room for the sums of one question.
#[derive(Drop)]
pub(crate) struct Sums {
    room: u32,
    placed: Vec<Placed>,
    loads: Vec<u64>,
    frames: Vec<u64>,
    bytes: Vec<u64>,
}

fn zeros(alloc: Global, cells: usize) -> Result<Vec<u64>, Memory> {
    let table = vec![in alloc; 0u64; cells]?;
    Ok(table)
}

fn clear(table: &mut Vec<u64>) {
    for cell in table.iter_mut() {
        *cell = 0;
    }
}

fn get(table: &Vec<u64>, at: u32) -> u64 {
    match table.get(at as usize) {
        Some(cell) => *cell,
        None => 0,
    }
}

fn add(table: &mut Vec<u64>, at: u32, by: u64) {
    if let Some(cell) = table.get_mut(at as usize) {
        *cell = cell.wrapping_add(by);
    }
}

/// Adds the amounts of a frame's microframes to each active frame of a placement.
fn add_each(table: &mut Vec<u64>, placement: &Placement, amounts: &[u64; 8]) {
    let step = frames_of(placement.period);
    for k in 0..1024 / step {
        let frame = k.wrapping_mul(step).wrapping_add(placement.phase as u32);
        for m in 0..8u32 {
            add(
                table,
                frame.wrapping_mul(8).wrapping_add(m),
                amounts[m as usize],
            );
        }
    }
}

/// Adds an amount to each active frame of a placement.
fn add_frames(table: &mut Vec<u64>, placement: &Placement, amount: u64) {
    let step = frames_of(placement.period);
    for k in 0..1024 / step {
        add(
            table,
            k.wrapping_mul(step).wrapping_add(placement.phase as u32),
            amount,
        );
    }
}

/// The greatest sum of a microframe with an amount, over the active frames of a placement.
fn greatest(table: &Vec<u64>, placement: &Placement, amounts: &[u64; 8]) -> u64 {
    let step = frames_of(placement.period);
    let mut most = 0;
    for k in 0..1024 / step {
        let frame = k.wrapping_mul(step).wrapping_add(placement.phase as u32);
        for m in 0..8u32 {
            let amount = amounts[m as usize];
            if amount > 0 {
                let sum = get(table, frame.wrapping_mul(8).wrapping_add(m));
                most = most.max(sum.wrapping_add(amount));
            }
        }
    }
    most
}

/// The greatest sum of an active frame of a placement.
fn greatest_frame(table: &Vec<u64>, placement: &Placement) -> u64 {
    let step = frames_of(placement.period);
    let mut most = 0;
    for k in 0..1024 / step {
        most = most.max(get(
            table,
            k.wrapping_mul(step).wrapping_add(placement.phase as u32),
        ));
    }
    most
}

impl Sums {
    /// Nothing placed, with room for so many.
    pub(crate) fn build(alloc: Global, room: u32) -> Result<Sums, Memory> {
        let placed = Vec::with_capacity(alloc, room as usize)?;
        let loads = zeros(alloc, 8192)?;
        let frames = zeros(alloc, 1024)?;
        let bytes = zeros(alloc, 8192)?;
        Ok(Sums {
            room,
            placed,
            loads,
            frames,
            bytes,
        })
    }

    /// Adds up what is placed; below the hub, if there is one, frames and byte-times as well.
    pub(crate) fn sum(&mut self, hub: Option<DevAddr>) {
        clear(&mut self.loads);
        clear(&mut self.frames);
        clear(&mut self.bytes);
        for x in self.placed.iter() {
            add_each(
                &mut self.loads,
                &x.placement,
                &costs_of(&x.want, &x.placement),
            );
            if hub.is_some() && x.want.hub == hub {
                add_frames(&mut self.frames, &x.placement, time_of(&x.want));
                add_each(
                    &mut self.bytes,
                    &x.placement,
                    &laid_of(&x.want, &x.placement),
                );
            }
        }
    }

    /// The sum of a microframe, of a frame, and of a translator's microframe, as they were last added up.
    pub(crate) fn cells(&self, u: u32) -> (u64, u64, u64) {
        (
            get(&self.loads, u),
            get(&self.frames, u / 8),
            get(&self.bytes, u),
        )
    }

    /// The greatest microframe sum with a placement, `None` where it breaks a budget.
    fn peak(&self, want: &Want, placement: &Placement) -> Option<u64> {
        let peak = greatest(&self.loads, placement, &costs_of(want, placement));
        if peak > MICROFRAME_BUDGET {
            return None;
        }
        if want.hub.is_some() {
            let time = greatest_frame(&self.frames, placement).wrapping_add(time_of(want));
            let bytes = greatest(&self.bytes, placement, &laid_of(want, placement));
            if time > FRAME_BUDGET || bytes > BYTE_TIMES_OF_MICROFRAME as u64 {
                return None;
            }
        }
        Some(peak)
    }

    /// The placement with the least greatest sum, the first of these.
    fn best(&self, want: &Want) -> Option<Placement> {
        let mut best = None;
        let mut least = u64::MAX;
        for phase in 0..frames_of(want.period) {
            for first in 0..starts_of(want) {
                let placement = placement_of(want, phase, first);
                match self.peak(want, &placement) {
                    Some(peak) if peak < least => {
                        least = peak;
                        best = Some(placement);
                    }
                    _ => {}
                }
            }
        }
        best
    }

    /// Places an endpoint, or says why not.
    pub(crate) fn admit(&mut self, want: &Want) -> Result<Placement, Refused> {
        if self.placed.len() >= self.room as usize {
            return Err(Refused::Room);
        }
        self.sum(want.hub);
        let Some(placement) = self.best(want) else {
            return Err(Refused::NoPlacement);
        };
        let placed = Placed {
            want: *want,
            placement,
        };
        if self.placed.push(placed).is_err() {
            return Err(Refused::Room);
        }
        Ok(placement)
    }

    /// Takes out the endpoint with this id; false where it isn't placed.
    pub(crate) fn remove(&mut self, id: u32) -> bool {
        let before = self.placed.len();
        self.placed.retain(|x| x.want.id != id);
        self.placed.len() < before
    }
}

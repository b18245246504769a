ghost use Rattle.std.specs.Prelude.{◌≡◌, ◌<◌, ◌≤◌};
ghost use Rattle.bandwidth.specs.Placements.{IsWant, placement_row};
ghost use Rattle.bandwidth.specs.Shapes.{IsShape, AreShapes, cost_cells, laid_cells};

use crate::asks::{byte_times_of, classic, costs_of, time_in_frame};
use crate::options::{microframes, placement_of, starts};
use crate::placements::{Placement, Want};
use usb_base::limits::BYTE_TIMES_OF_MICROFRAME;
use usb_base::{Dir, EpKind, tt_bytes};

/// Amounts of the eight microframes of a frame, all of them 0 outside `from` to below `to`.
#[derive(Clone, Copy, Debug)]
pub(crate) struct Amounts {
    pub(crate) from: u8,
    pub(crate) to: u8,
    pub(crate) each: [u64; 8],
}

/// What a placement from one first microframe on does in each of its active frames.
#[derive(Clone, Copy, Debug)]
pub(crate) struct Shape {
    pub(crate) smask: u8,
    pub(crate) cmask: u8,
    /// The bus times of the microframes, in picoseconds.
    pub(crate) costs: Amounts,
    /// The byte-times laid in the translator in the microframes.
    pub(crate) bytes: Amounts,
    /// The classic bus time of the frame, in picoseconds.
    pub(crate) time: u64,
}

/// How many microframes the transactions of a placement span.
fn span_of_costs(want: &Want) -> u8
    requires { IsWant want.now }
    ensures value { result ≡ cost_cells want.now }
    ensures bound { result ≤ 9 }
{
    if !classic(want.speed) {
        return if want.period < 8 {
            9 - want.period as u8
        } else {
            1
        };
    }
    match (want.kind, want.dir) {
        (EpKind::Iso, Dir::In) => microframes(want.max + 9) + 3,
        (EpKind::Iso, Dir::Out) => microframes(want.max),
        (_, _) => 5,
    }
}

/// In how many microframes the byte-times of a placement are laid.
fn span_of_bytes(want: &Want) -> u8
    requires { IsWant want.now }
    ensures value { result ≡ laid_cells want.now }
    ensures bound { result ≤ 6 }
{
    if !classic(want.speed) {
        return 0;
    }
    ((tt_bytes(want.speed, want.kind, want.max) + (BYTE_TIMES_OF_MICROFRAME as u32 - 1))
        / BYTE_TIMES_OF_MICROFRAME as u32) as u8
}

/// What the placements from a first microframe on do.
pub(crate) fn shape_of(want: &Want, first: u8) -> Shape
    requires want { IsWant want.now }
    requires first { first < (placement_row want.now).starts }
    ensures shape { IsShape want.now result }
    ensures first { result.costs.from ≡ first }
{
    let placement = placement_of(want, 0, first);
    let costs = Amounts {
        from: first,
        to: first + span_of_costs(want),
        each: costs_of(want, &placement),
    };
    let bytes = Amounts {
        from: first,
        to: first + span_of_bytes(want),
        each: byte_times_of(want, &placement),
    };
    Shape {
        smask: placement.smask,
        cmask: placement.cmask,
        costs,
        bytes,
        time: time_in_frame(want),
    }
}

/// A shape without transactions.
const NO_SHAPE: Shape = Shape {
    smask: 0,
    cmask: 0,
    costs: Amounts {
        from: 0,
        to: 0,
        each: [0; 8],
    },
    bytes: Amounts {
        from: 0,
        to: 0,
        each: [0; 8],
    },
    time: 0,
};

/// What the placements from each first microframe on do.
pub(crate) fn shapes_of(want: &Want) -> [Shape; 8]
    requires { IsWant want.now }
    ensures { AreShapes want.now result }
{
    let mut shapes = [NO_SHAPE; 8];
    for first in 0..starts(want) {
        shapes[first as usize] = shape_of(want, first);
    }
    shapes
}

impl Shape {
    /// The placement of this shape in a phase.
    #[inline(always)]
    pub(crate) fn placed(&self, period: u16, phase: u16) -> Placement
        ensures { result ≡ record { period = period; phase = phase; smask = self.now.smask; cmask = self.now.cmask } }
    {
        Placement {
            period,
            phase,
            smask: self.smask,
            cmask: self.cmask,
        }
    }
}

//! The laws.
ghost use Rattle.std.specs.Prelude.{ℕ, Option};
ghost use Rattle.law_ring.specs.Bus.{Sender};
ghost use Rattle.law_ring.specs.OutBus.{Taker};
ghost use Rattle.law_world.specs.steps.endpoint_releases.Released.{EndpointReleaseDrives, DueIsToLeave, QueuesDiffer};
ghost use Rattle.law_world.specs.steps.endpoint_releases.Beside.{QueueIsGone, PipesStayBeside, OutPipesStayBeside, OutsStayBeside, ReportsStayBeside};

use usb_base::Wire;

/// Where the walk doesn't meet the queue head of the endpoint any more, its blocks, and those of its transfers, are given back under the walk: the ring goes on without it.
pub fn endpoint_release_drives()
    ensures { EndpointReleaseDrives }
{}

/// The endpoint whose release is due has a queue and left the ring, and no other endpoint has its queue head there.
pub fn the_endpoint_that_is_due()
    ensures due { DueIsToLeave }
    ensures differ { QueuesDiffer }
{}

/// Nothing of its queue head is told any more, and all of each other one: pipes, streams and what was reported of them are as before.
pub fn the_others_stay<W: Wire>()
    ensures gone { QueueIsGone }
    ensures pipes { (sender : W → ℕ → ℕ → Option Sender) → PipesStayBeside sender }
    ensures outs { (taker : W → ℕ → ℕ → Option Taker) → OutPipesStayBeside taker }
    ensures streams { (taker : W → ℕ → ℕ → Option Taker) → OutsStayBeside taker }
    ensures reports { ReportsStayBeside }
{}

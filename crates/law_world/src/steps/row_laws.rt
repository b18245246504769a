//! The laws.
ghost use Rattle.std.specs.Prelude.{ℕ, Option};
ghost use Rattle.law_ring.specs.OutBus.{Taker};
ghost use Rattle.law_world.specs.steps.Joining.{EachIsOnly, PipesAreStreams, HarvestedIsTaken};
ghost use Rattle.law_world.specs.steps.Spared.{OutPipesAreSpared};
ghost use Rattle.law_world.specs.steps.Opens.{OutPipesWithOne, OutsWithOne, UntakenLessOne, UntakenWithAnother, OutPipesWithAnother};
ghost use Rattle.law_world.specs.steps.Opens.{OutsWithAnother};
ghost use Rattle.law_world.specs.steps.Returns.{ReturnLeavesOutPipes, ReturnLeavesOuts};
ghost use Rattle.law_world.specs.steps.Takers.{OpeningIsUntaken};

use usb_base::Wire;

/// No other queue head sends to the endpoint of one with an OUT stream; and where what was harvested, and what is still to be, are the bytes that are known to
/// be taken, the pipes are streams. Then what was harvested begins what the device took.
pub fn pipes_and_reports_are_streams<W: Wire>()
    ensures only { (taker : W → ℕ → ℕ → Option Taker) → EachIsOnly taker }
    ensures joined { (taker : W → ℕ → ℕ → Option Taker) → PipesAreStreams taker }
    ensures taken { (taker : W → ℕ → ℕ → Option Taker) → HarvestedIsTaken taker }
{}

/// A step that spares the queue heads with OUT streams, and the qTDs that these work on, leaves both sides of each pipe agreed.
pub fn spared_out_pipes_agree<W: Wire>()
    ensures { (taker : W → ℕ → ℕ → Option Taker) → OutPipesAreSpared taker }
{}

/// Where the walk may meet a queue head for an OUT endpoint, its stream begins: its device took nothing, nothing is out and nothing harvested of it.
pub fn an_out_stream_begins<W: Wire>()
    ensures pipes { (taker : W → ℕ → ℕ → Option Taker) → OutPipesWithOne taker }
    ensures streams { (taker : W → ℕ → ℕ → Option Taker) → OutsWithOne taker }
    ensures others { (taker : W → ℕ → ℕ → Option Taker) → UntakenLessOne taker }
{}

/// Where it may meet one for another endpoint, each OUT stream goes on.
pub fn an_open_leaves_out_streams<W: Wire>()
    ensures pipes { (taker : W → ℕ → ℕ → Option Taker) → OutPipesWithAnother taker }
    ensures streams { (taker : W → ℕ → ℕ → Option Taker) → OutsWithAnother taker }
    ensures others { (taker : W → ℕ → ℕ → Option Taker) → UntakenWithAnother taker }
{}

/// QTDs and buffers that are given back, of which nothing was moved, leave each OUT stream.
pub fn a_return_leaves_out_streams<W: Wire>()
    ensures pipes { (taker : W → ℕ → ℕ → Option Taker) → ReturnLeavesOutPipes taker }
    ensures streams { (taker : W → ℕ → ℕ → Option Taker) → ReturnLeavesOuts taker }
{}

/// Before the first line of a script each of its takers took nothing, and expects DATA0.
pub fn opening_is_untaken()
    ensures { OpeningIsUntaken }
{}

//! The laws.
ghost use Rattle.std.specs.Prelude.{ℕ, Option};
ghost use Rattle.law_ring.specs.Bus.{Sender};
ghost use Rattle.law_ring.specs.OutBus.{Taker};
ghost use Rattle.law_world.specs.memory.pipe_steps.Events.{EventKeepsPipes};
ghost use Rattle.law_world.specs.memory.pipe_steps.Laws.{StaysTellsOneHand, StepKeepsPipes, OpenBeginsPipes};

use usb_base::Wire;

/// Where no queue has a step, all that is told of each queue is told as before, by the one hand of both walks.
pub fn stays_tells_one_hand()
    ensures { StaysTellsOneHand }
{}

/// Each event of the controller keeps both sides of each pipe agreed, with the packets that it moved, whichever walk it is of.
pub fn each_event_keeps_pipes<W: Wire>()
    ensures { (sender : W → ℕ → ℕ → Option Sender) (taker : W → ℕ → ℕ → Option Taker) → EventKeepsPipes W.begins W.transacts sender taker }
{}

/// Each step of a queue but the end of an open keeps both sides of each pipe agreed, of IN and of OUT endpoints at high speed, whatever
/// else the driver has: what moves of a stream the controller moves.
pub fn each_step_keeps_pipes<W: Wire>()
    ensures { (sender : W → ℕ → ℕ → Option Sender) (taker : W → ℕ → ℕ → Option Taker) → StepKeepsPipes sender taker }
{}

/// Once an endpoint was opened, its queue head is one of those that are met, and the stream of one at high speed begins: nothing of it
/// moved. All others go on.
pub fn an_open_begins_pipes<W: Wire>()
    ensures { (sender : W → ℕ → ℕ → Option Sender) (taker : W → ℕ → ℕ → Option Taker) → OpenBeginsPipes sender taker }
{}

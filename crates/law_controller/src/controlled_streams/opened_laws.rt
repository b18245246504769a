//! The laws.
ghost use Rattle.std.specs.Prelude.{ℕ, Option};
ghost use Rattle.law_ring.specs.Bus.{Sender};
ghost use Rattle.law_controller.specs.controlled_streams.Unopened.{UnopenedSendersWait};
ghost use Rattle.law_controller.specs.controlled_streams.Opened.{EndsWithOne, PipesWithOne, ReportsWithOne, UnopenedLessOne};
ghost use Rattle.law_controller.specs.controlled_streams.Opened.{EndsWithOther, PipesWithOther, ReportsWithOther, UnopenedWithOther};

use usb_base::Wire;

/// Each event of the controller leaves the devices' endpoints that no queue head is for.
pub fn unopened_senders_wait<W: Wire>()
    ensures { UnopenedSendersWait W.begins W.transacts }
{}

/// Where the walk may meet a queue head for one of them, its stream begins: nothing is taken, out or reported of it, and both sides of its pipe agree.
pub fn a_stream_begins<W: Wire>()
    ensures ends { EndsWithOne }
    ensures pipes { (sender : W → ℕ → ℕ → Option Sender) → PipesWithOne sender }
    ensures reports { ReportsWithOne }
    ensures unopened { (sender : W → ℕ → ℕ → Option Sender) → UnopenedLessOne sender }
{}

/// Where the walk may meet a queue head that has no stream, as that of an OUT endpoint, all streams go on: no active qTD of it asks one of them.
pub fn another_begins<W: Wire>()
    ensures ends { EndsWithOther }
    ensures pipes { (sender : W → ℕ → ℕ → Option Sender) → PipesWithOther sender }
    ensures reports { ReportsWithOther }
    ensures unopened { (sender : W → ℕ → ℕ → Option Sender) → UnopenedWithOther sender }
{}

//! The laws.
ghost use Rattle.std.specs.Prelude.{ℕ, Option};
ghost use Rattle.law_ring.specs.Bus.{Sender};
ghost use Rattle.law_controller.specs.controlled_streams.Returned.{AccountsAreReturned, ReportedAreReturned, PipesAreReturned, FrontIsReturned, PassedHasNone};

use usb_base::Wire;

/// Where nothing was moved of the qTDs that go, what is told of all published ones stays, and so does what is reported.
pub fn what_goes_untold_changes_no_stream()
    ensures accounts { AccountsAreReturned }
    ensures reported { ReportedAreReturned }
{}

/// Pipes stay as they were.
pub fn pipes_stay<W: Wire>()
    ensures { (sender : W → ℕ → ℕ → Option Sender) → PipesAreReturned sender }
{}

/// The front of the queue head stays, and nothing was moved of a published qTD before it.
pub fn the_front_stays()
    ensures front { FrontIsReturned }
    ensures passed { PassedHasNone }
{}

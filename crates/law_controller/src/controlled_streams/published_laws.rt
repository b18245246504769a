//! The laws.
ghost use Rattle.std.specs.Prelude.{ℕ, Option};
ghost use Rattle.law_ring.specs.Bus.{Sender};
ghost use Rattle.law_controller.specs.controlled_streams.PublishedLaws.{IdleStoreLeavesReports, LastStoreLeavesReports, StoreLeavesPipes};

use usb_base::Wire;

/// A store over a qTD that isn't active leaves all that is still to be harvested; where it makes the qTD active, that is one more of which nothing was
/// moved. The pipes of the endpoints agree as before.
pub fn stores_leave_the_streams<W: Wire>()
    ensures idle { IdleStoreLeavesReports }
    ensures last { LastStoreLeavesReports }
    ensures pipes { (sender : W → ℕ → ℕ → Option Sender) → StoreLeavesPipes sender }
{}

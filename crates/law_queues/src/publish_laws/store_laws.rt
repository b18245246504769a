//! The laws.
ghost use Rattle.std.specs.Prelude.{ℕ, Option};
ghost use Rattle.law_ring.specs.Bus.{Sender};
ghost use Rattle.law_queues.specs.publish_laws.Stores.{StorePublishes, StorePipes, StoreReports, StoreStands};

use usb_base::Wire;

/// Each store of a driver that publishes a qTD leaves the ring under the walk, and what is told of the driver's queues.
pub fn a_store_leaves_the_queues()
    ensures ring { StorePublishes }
    ensures stands { StoreStands }
{}

/// It leaves the pipes and the report of all streams; after the last store the qTD is out too.
pub fn a_store_leaves_the_streams<W: Wire>()
    ensures pipes { (sender : W → ℕ → ℕ → Option Sender) → StorePipes sender }
    ensures reports { StoreReports }
{}

//! The laws.
ghost use Rattle.std.specs.Prelude.{ℕ, Option};
ghost use Rattle.law_ring.specs.Bus.{Sender};
ghost use Rattle.law_queues.specs.open_laws.Lends.{LendDrives, LendStands, LendPipes, LendReports, OpenLentStays, HeadIsThere};
ghost use Rattle.law_queues.specs.open_laws.Queues.{OpenLendStands, OpenLendIsMade, OpenFinishes, HeadKeepsQueues, NewHeadsRest};

use usb_base::Wire;

/// The lend leaves the ring and what is told of the driver's queues; the new queue head and its inactive qTD are told, and the walk doesn't meet them.
pub fn a_lend_of_an_open()
    ensures drives { LendDrives }
    ensures stands { LendStands }
    ensures head { HeadIsThere }
{}

/// It leaves the pipes, and the report of each queue head, of any endpoint.
pub fn a_lend_leaves_the_streams<W: Wire>()
    ensures pipes { (sender : W → ℕ → ℕ → Option Sender) → LendPipes sender }
    ensures reports { LendReports }
{}

/// Each event of the controller leaves the new queue head as it was lent.
pub fn open_lent_stays<W: Wire>()
    ensures { OpenLentStays W.begins W.transacts }
{}

/// Of the driver's queues all this is so of an endpoint of any kind, whatever is to lead to its queue head: what is told of them goes on with the lend, with the
/// stores of links, and with the end of the open, from where on the new queue is one of them.
pub fn an_open_of_any_queue()
    ensures lend { OpenLendStands }
    ensures made { OpenLendIsMade }
    ensures finishes { OpenFinishes }
    ensures head { HeadKeepsQueues }
    ensures rest { NewHeadsRest }
{}

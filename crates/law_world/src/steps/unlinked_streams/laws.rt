//! The laws.
ghost use Rattle.std.specs.Prelude.{ℕ, Option};
ghost use Rattle.law_ring.specs.Bus.{Sender};
ghost use Rattle.law_ring.specs.OutBus.{Taker};
ghost use Rattle.law_world.specs.steps.unlinked_streams.Unlinks.{UnlinkStands, UnlinkRow, UnlinkMeetsRing, UnlinkLeavesRing, UnlinkLeavesPipes, UnlinkLeavesOutPipes, UnlinkLeavesReports, UnlinkLeavesSent, UnlinkSparesHeads, UnlinkSparesElements, UnlinkSparesHand, UnlinkLeavesFronts, UnlinkLeavesQueues};

use usb_base::Wire;

/// While a cancel is unfinished the words of the ring tell which queue head leads to that of the endpoint, and where this one leads.
pub fn unlink_stands()
    ensures { UnlinkStands }
{}

/// The driver's next event is the store past the endpoint's queue head. Then the endpoint is in the ring no more and waits for the doorbell, and the command is
/// finished; the walk goes on over the ring.
pub fn a_queue_head_is_passed()
    ensures row { UnlinkRow }
    ensures meets { UnlinkMeetsRing }
    ensures ring { UnlinkLeavesRing }
{}

/// Of each queue head the overlay, the qTDs and their buffers stay, and so do its front and its tail; all that is told of the driver's queues is so still.
pub fn it_spares_all_queues()
    ensures heads { UnlinkSparesHeads }
    ensures elements { UnlinkSparesElements }
    ensures hand { UnlinkSparesHand }
    ensures fronts { UnlinkLeavesFronts }
    ensures queues { UnlinkLeavesQueues }
{}

/// Both sides of the pipes of IN and OUT endpoints agree as before, the reports stay right, and what is sent is sent whole and in turn.
pub fn it_leaves_the_streams<W: Wire>()
    ensures pipes { (sender : W → ℕ → ℕ → Option Sender) → UnlinkLeavesPipes sender }
    ensures outs { (taker : W → ℕ → ℕ → Option Taker) → UnlinkLeavesOutPipes taker }
    ensures reports { UnlinkLeavesReports }
    ensures sent { UnlinkLeavesSent }
{}

//! The laws.
ghost use Rattle.law_queues.specs.fed_lends.Streams.{LendLeavesReports, LendEndsQueue, LendLeavesPipes};
ghost use Rattle.law_queues.specs.fed_lends.LendLaws.{LendRowGoesOn};
ghost use Rattle.law_queues.specs.fed_lends.Accepted.{AskedIsToBeLent, RequestedIsToBeLent, ToBeLentStays};
ghost use Rattle.std.specs.Prelude.{ℕ, Option};
ghost use Rattle.law_ring.specs.Bus.{Sender};

use usb_base::Wire;

/// Once a transfer is lent, its qTDs but the first are out too: they come after all others, and no bytes are told of them. So what was
/// reported, and what is still to be harvested, are the packets taken, as before.
pub fn a_lend_leaves_reports()
    ensures reports { LendLeavesReports }
    ensures ends { LendEndsQueue }
{}

/// Both sides of each pipe agree as before.
pub fn a_lend_leaves_pipes<W: Wire>()
    ensures { (sender : W → ℕ → ℕ → Option Sender) → LendLeavesPipes sender }
{}

/// The row of a driver that lends a get, a put or a request: the ring goes on, both sides of each pipe agree, what was reported is right, and each queue is fed.
pub fn a_lend_row_goes_on<W: Wire>()
    ensures { (sender : W → ℕ → ℕ → Option Sender) → LendRowGoesOn sender }
{}

/// Once a get, a put or a request was accepted it is to be lent; the controller leaves it.
pub fn a_transfer_is_to_be_lent()
    ensures accepted { AskedIsToBeLent }
    ensures requested { RequestedIsToBeLent }
    ensures stays { ToBeLentStays }
{}

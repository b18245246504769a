//! The laws.
ghost use Rattle.law_queues.specs.lent_fronts.Stands.{LendStands, LendIsAsked, LendIsMade};
ghost use Rattle.law_queues.specs.lent_fronts.Whole.{LendRowLeavesFronts};
ghost use Rattle.std.specs.Prelude.{ℕ, Option};
ghost use Rattle.law_ring.specs.Bus.{Sender};

use usb_base::Wire;

/// Where a get, a put or a request is lent its qTDs stand from the front of their queue on: so each front stays, what stood before stands with its
/// bytes, and each buffer reaches no further than its runs.
pub fn a_transfer_is_lent_behind_the_front<W: Wire>()
    ensures { (sender : W → ℕ → ℕ → Option Sender) → LendRowLeavesFronts sender }
{}

/// So it is of any queue head, whatever leads to it: all that is told of the driver's queues stands with the new qTDs, each front and each tail stays, and the
/// part of the queue head is sound.
pub fn a_transfer_is_lent_to_any_queue()
    ensures stands { LendStands }
    ensures asked { LendIsAsked }
    ensures made { LendIsMade }
{}

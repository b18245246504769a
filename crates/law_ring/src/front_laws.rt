//! The laws.
ghost use Rattle.std.specs.Prelude.{ℕ, Bool, List};
ghost use Rattle.usb_base.specs.declared.packets.Reply.{Reply};
ghost use Rattle.async_walk.specs.declared.state.WalkStep.{WalkStep};
ghost use Rattle.law_structures.specs.lent_structures.Structures.{StructureSets};
ghost use Rattle.law_ring.specs.Hand.{Hand};
ghost use Rattle.law_ring.specs.Ring.{IsInHand};
ghost use Rattle.law_ring.specs.Effects.{Effect};
ghost use Rattle.law_ring.specs.Streams.{AreMembers};
ghost use Rattle.law_ring.specs.Front.{LinksRise, HasFront, FrontGoesOn, FrontIsSpared, FrontIsRenumbered};
ghost use Rattle.law_ring.specs.Tail.{TailStays, LastIsTail, TailMoves};

use usb_base::Wire;

/// Each event of the walk leaves the front of each queue head, or moves it on; a qTD that is done stands behind it from then on.
pub fn each_event_moves_the_front_on<W: Wire>()
    ensures { (member : ℕ → Bool) (parts : StructureSets) (hand : Hand) (reply : Reply) (wire after : W) (now : StructureSets) (later : Hand) (kind : WalkStep)
        (order : ℕ → ℕ) (front : ℕ) (out : List ℕ) (n : ℕ) → AreMembers member parts → IsInHand member parts reply hand
        → Effect W.transacts parts hand wire after now later kind → LinksRise order (parts n) → HasFront order front out n (parts n)
        → FrontGoesOn order front out n parts now }
{}

/// A row of the driver that leaves the overlay and what is out leaves the front, and so does one that numbers new qTDs.
pub fn a_row_spares_the_front()
    ensures spared { FrontIsSpared }
    ensures renumbered { FrontIsRenumbered }
{}

/// Past its tail, a qTD at the end of a queue that isn't published, the walk doesn't go.
pub fn a_queue_has_a_tail()
    ensures stays { TailStays }
    ensures last { LastIsTail }
    ensures moves { TailMoves }
{}

ghost use Rattle.std.specs.Prelude.{◌≡◌, ℕ, ◌-◌, Bool, true, false, List, length, take, Some};
ghost use Rattle.usb_base.specs.declared.packets.Reply.{Reply};
ghost use Rattle.qh_qtd.specs.declared.qtd.Qtd.{Qtd};
ghost use Rattle.async_walk.specs.declared.state.WalkStep.{WalkStep};
ghost use Rattle.law_structures.specs.lent_structures.Structures.{Element, StructureSets};
ghost use Rattle.law_structures.specs.lent_structures.Sound.{IsMember};
ghost use Rattle.law_ring.specs.Hand.{Hand};
ghost use Rattle.law_ring.specs.Ring.{IsInHand};
ghost use Rattle.law_ring.specs.Effects.{buffer_of, Effect};
ghost use Rattle.law_ring.specs.Told.{Told};
ghost use Rattle.law_ring.specs.Streams.{AreMembers, NoneBeside, StreamEffect};
ghost use Rattle.law_ring.specs.Order.{Accounts, bytes_of_effect, GoesOnInOrder};

use usb_base::Wire;

/// Each event of the walk adds the bytes that it moved to the end of those of all published qTDs of their queue head.
pub fn each_event_adds_to_the_end<W: Wire>()
    ensures { (member : ℕ → Bool) (parts : StructureSets) (hand : Hand) (reply : Reply) (wire after : W) (now : StructureSets) (later : Hand) (kind : WalkStep)
        (order : ℕ → ℕ) (place : ℕ) (out : List ℕ) (n : ℕ) (xs : List ℕ)
        → AreMembers member parts → IsInHand member parts reply hand → Effect W.transacts parts hand wire after now later kind
        → (z : StreamEffect NoneBeside W.transacts parts hand wire after now later) → Accounts order place out hand parts n xs
        → GoesOnInOrder order out later now n xs (bytes_of_effect n z) }
{}

/// The bytes that were moved of a qTD that is done are the first of its buffer in memory, all but those that its token tells to be left.
pub fn a_done_qtd_is_told_by_memory()
    ensures { (member : ℕ → Bool) (parts : StructureSets) (hand : Hand) (n e : ℕ) (t : Qtd) (x : List ℕ)
        → IsMember member n (parts n) → parts n e ≡ Some (Element t) → t.token.active ≡ false → Told hand parts n e x
        → x ≡ take (length (buffer_of (parts n) t) - t.token.total) (buffer_of (parts n) t) }
{}

ghost use Rattle.std.specs.Prelude.{◌≡◌, ℕ, Bool, true, List, Option};
ghost use Rattle.std.specs.List.{concat};
ghost use Rattle.async_walk.specs.Rows.{WalkPlace, at_event, event_row, step_of, Leads};
ghost use Rattle.law_structures.specs.lent_structures.Structures.{StructureSets};
ghost use Rattle.law_ring.specs.Hand.{Hand};
ghost use Rattle.claims_base.specs.Controller.{Base};
ghost use Rattle.law_ring.specs.Ring.{IsRing};
ghost use Rattle.law_ring.specs.Effects.{AreBytesHeard};
ghost use Rattle.law_ring.specs.Told.{Endpoint};
ghost use Rattle.claims_base.specs.Prefix.{IsPrefix};
ghost use Rattle.law_ring.specs.Bus.{Sender, IsBus};
ghost use Rattle.law_ring.specs.Pipes.{AreEndpoints, ArePiped, GoesOn};

use usb_base::Wire;

/// Each event of the walk takes at most one packet more of one stream, and all pipes agree afterwards.
pub fn each_event_keeps_the_pipes<W: Wire>()
    ensures { (stream : ℕ → ℕ → Bool) (packets : ℕ → ℕ → List (List ℕ)) (sender : W → ℕ → ℕ → Option Sender) (base : Base) (member streams : ℕ → Bool) (endpoint : ℕ → Endpoint)
        (acc : ℕ → List (List ℕ)) (parts : StructureSets) (hand : Hand) (p : WalkPlace) (wire : W) (new : WalkPlace) (after : W)
        → AreEndpoints stream member streams endpoint → IsBus W.transacts stream sender
        → IsRing base member parts hand p → ArePiped stream packets sender member streams endpoint acc parts hand wire
        → AreBytesHeard W.transacts wire after → Leads W.transacts (event_row p) (at_event p) wire new after
        → GoesOn W.transacts stream packets sender base member streams endpoint acc parts hand wire after new (step_of (event_row p) (at_event p)) }
{}

/// The bytes that were taken of each stream begin it.
pub fn accepted_bytes_begin_each_stream<W: Wire>()
    ensures { (stream : ℕ → ℕ → Bool) (packets : ℕ → ℕ → List (List ℕ)) (sender : W → ℕ → ℕ → Option Sender) (member streams : ℕ → Bool) (endpoint : ℕ → Endpoint)
        (acc : ℕ → List (List ℕ)) (parts : StructureSets) (hand : Hand) (wire : W) (n : ℕ)
        → ArePiped stream packets sender member streams endpoint acc parts hand wire → streams n ≡ true
        → IsPrefix (concat (acc n)) (concat (packets (endpoint n).addr (endpoint n).ep)) }
{}

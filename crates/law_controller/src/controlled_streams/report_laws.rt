ghost use Rattle.std.specs.Prelude.{◌≡◌, ℕ, ◌-◌, Bool, true, false, List, ◌∷◌, ◌++◌, length, take, Option, Some};
ghost use Rattle.std.specs.List.{concat};
ghost use Rattle.qh_qtd.specs.declared.qtd.Qtd.{Qtd};
ghost use Rattle.hc_core.specs.Controller.{Content};
ghost use Rattle.law_structures.specs.lent_structures.Structures.{Element, StructureSets};
ghost use Rattle.law_structures.specs.lent_structures.Sound.{IsMember};
ghost use Rattle.law_ring.specs.Hand.{Hand};
ghost use Rattle.claims_base.specs.Controller.{Base};
ghost use Rattle.law_ring.specs.Effects.{buffer_of};
ghost use Rattle.law_ring.specs.Told.{Endpoint};
ghost use Rattle.law_controller.specs.controlled_streams.Control.{IsControlled};
ghost use Rattle.claims_base.specs.Prefix.{IsPrefix};
ghost use Rattle.law_ring.specs.Bus.{Sender};
ghost use Rattle.law_ring.specs.Pipes.{ArePiped, grown};
ghost use Rattle.law_controller.specs.controlled_streams.Events.{ControlGoesOn};
ghost use Rattle.law_controller.specs.controlled_streams.Reported.{IsReported, AreReported};

use usb_base::Wire;

/// Each event of the controller leaves what is reported right, with the packets that are then taken.
pub fn an_event_leaves_the_report_right<W: Wire>()
    ensures { (stream : ℕ → ℕ → Bool) (packets : ℕ → ℕ → List (List ℕ)) (sender : W → ℕ → ℕ → Option Sender) (base : Base) (member streams : ℕ → Bool) (endpoint : ℕ → Endpoint)
        (acc : ℕ → List (List ℕ)) (parts : StructureSets) (hand : Hand) (c : Content) (wire after : W) (new : Content) (order : ℕ → ℕ → ℕ) (out : ℕ → List ℕ) (reported : ℕ → List ℕ)
        → IsControlled base member parts hand c
        → (g : ControlGoesOn W.begins W.transacts stream packets sender base member streams endpoint acc parts hand wire after new)
        → AreReported streams order out hand parts acc reported
        → AreReported streams order out g.event.later g.event.now (grown acc g.at g.more) reported }
{}

/// The first published qTD, once it is done, adds the bytes of its buffer to the report, all but those that its token tells to be left.
pub fn a_harvest_adds_to_the_report()
    ensures { (member : ℕ → Bool) (order : ℕ → ℕ) (e : ℕ) (out : List ℕ) (hand : Hand) (parts : StructureSets) (n : ℕ) (acc : List (List ℕ)) (reported : List ℕ) (t : Qtd)
        → IsMember member n (parts n) → parts n e ≡ Some (Element t) → t.token.active ≡ false → IsReported order (e ∷ out) hand parts n acc reported
        → IsReported order out hand parts n acc (reported ++ take (length (buffer_of (parts n) t) - t.token.total) (buffer_of (parts n) t)) }
{}

/// What is reported of a stream begins it.
pub fn what_is_reported_begins_the_stream<W: Wire>()
    ensures { (stream : ℕ → ℕ → Bool) (packets : ℕ → ℕ → List (List ℕ)) (sender : W → ℕ → ℕ → Option Sender) (member streams : ℕ → Bool) (endpoint : ℕ → Endpoint)
        (acc : ℕ → List (List ℕ)) (parts : StructureSets) (hand : Hand) (wire : W) (order : ℕ → ℕ → ℕ) (out : ℕ → List ℕ) (reported : ℕ → List ℕ) (n : ℕ)
        → ArePiped stream packets sender member streams endpoint acc parts hand wire → AreReported streams order out hand parts acc reported → streams n ≡ true
        → IsPrefix (reported n) (concat (packets (endpoint n).addr (endpoint n).ep)) }
{}

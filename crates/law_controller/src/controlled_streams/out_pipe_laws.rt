//! The stream of an OUT endpoint of a ring under the controller and its driver (EHCI 1.0, 4.6 and 4.10; USB 2.0, 8.6): each event of the controller keeps both
//! sides of its pipe agreed, and so do a harvest and a step of a driver that spares it; the bytes known to be taken are those harvested and those moved of the
//! published qTDs, and they begin what the device took.
ghost use Rattle.std.specs.Prelude.{◌≡◌, ℕ, ◌-◌, Bool, false, List, ◌∷◌, ◌++◌, length, take, Option, Some};
ghost use Rattle.qh_qtd.specs.declared.qtd.Qtd.{Qtd};
ghost use Rattle.hc_core.specs.Controller.{Content, HasRow, microframe_row};
ghost use Rattle.law_structures.specs.lent_structures.Structures.{Element, StructureSets};
ghost use Rattle.law_structures.specs.lent_structures.Sound.{IsMember};
ghost use Rattle.law_ring.specs.Hand.{Hand};
ghost use Rattle.claims_base.specs.Controller.{Base};
ghost use Rattle.law_ring.specs.Effects.{buffer_of, AreBytesHeard};
ghost use Rattle.law_ring.specs.Told.{Endpoint};
ghost use Rattle.law_controller.specs.controlled_streams.Control.{IsOn, IsControlled};
ghost use Rattle.law_ring.specs.OutBus.{Taker, IsOutBus, KeepsTakers};
ghost use Rattle.law_controller.specs.controlled_streams.Outs.{IsOutStream, OutGoesOn, LinkedIsUnmoved, StaleIsUnmoved, OutIsSpared, KnownBeginsTaken};

use usb_base::Wire;

/// Each event of the controller keeps the stream of an OUT endpoint.
pub fn an_event_keeps_an_out_stream<W: Wire>()
    ensures { (stream : ℕ → ℕ → Bool) (taker : W → ℕ → ℕ → Option Taker) (base : Base) (member : ℕ → Bool)
        (order : ℕ → ℕ) (out : List ℕ) (parts : StructureSets) (hand : Hand) (c : Content) (wire : W) (new : Content) (after : W) (n : ℕ) (x : Endpoint) (harvested : List ℕ)
        → IsOutBus W.transacts stream taker → KeepsTakers W.begins stream taker → IsControlled base member parts hand c → IsOn base
        → AreBytesHeard W.transacts wire after → HasRow W.begins W.transacts (microframe_row c.registers c.control) c wire new after
        → IsOutStream stream (taker wire x.addr x.ep) member order out parts hand n x harvested
        → OutGoesOn W.begins W.transacts stream taker base member order out parts hand wire after new n x harvested }
{}

/// A step of a driver that spares the queue head and the qTD that it works on leaves both sides of the pipe agreed.
pub fn a_spared_out_pipe_agrees()
    ensures linked { LinkedIsUnmoved }
    ensures stale { StaleIsUnmoved }
    ensures spared { OutIsSpared }
{}

/// The first published qTD, once it is done, adds the bytes of its buffer to those harvested, all but those that its token tells to be left.
pub fn a_harvest_keeps_an_out_stream()
    ensures { (stream : ℕ → ℕ → Bool) (o : Option Taker) (member : ℕ → Bool) (order : ℕ → ℕ) (e : ℕ) (out : List ℕ) (parts : StructureSets) (hand : Hand)
        (n : ℕ) (x : Endpoint) (harvested : List ℕ) (t : Qtd)
        → IsMember member n (parts n) → parts n e ≡ Some (Element t) → t.token.active ≡ false → IsOutStream stream o member order (e ∷ out) parts hand n x harvested
        → IsOutStream stream o member order out parts hand n x (harvested ++ take (length (buffer_of (parts n) t) - t.token.total) (buffer_of (parts n) t)) }
{}

/// What the host knows to be taken begins what the device took.
pub fn known_begins_taken()
    ensures { KnownBeginsTaken }
{}

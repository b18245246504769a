//! The pipe of an OUT endpoint of a ring (EHCI 1.0, 4.10 and 4.11; USB 2.0, 8.6): over any bus whose devices take their streams by the toggle, and that loses
//! packets as it likes, each event of the walk keeps both sides agreed: the device took the bytes that the host knows to be taken, or besides them the packet
//! that the host sends next.
ghost use Rattle.std.specs.Prelude.{◌≡◌, ℕ, Bool, true, List, ◌++◌, Option};
ghost use Rattle.usb_base.specs.declared.packets.Reply.{Reply as Heard};
ghost use Rattle.async_walk.specs.declared.state.WalkStep.{WalkStep};
ghost use Rattle.law_structures.specs.lent_structures.Structures.{StructureSets};
ghost use Rattle.law_ring.specs.Hand.{Hand};
ghost use Rattle.law_ring.specs.Ring.{IsInHand};
ghost use Rattle.law_ring.specs.Effects.{Effect};
ghost use Rattle.law_ring.specs.Told.{Endpoint};
ghost use Rattle.law_ring.specs.Streams.{AreMembers, NoneBeside, StreamEffect};
ghost use Rattle.law_ring.specs.Order.{bytes_of_effect};
ghost use Rattle.law_ring.specs.OutBus.{Taker, IsOutBus};
ghost use Rattle.law_ring.specs.OutPipes.{IsOutPipe};
ghost use Rattle.law_ring.specs.OutPipeLaws.{IsOnlyEndpoint};

use usb_base::Wire;

/// Each event of the walk keeps both sides of the pipe of an OUT endpoint agreed, with the bytes that the host then knows to be taken.
pub fn each_event_keeps_an_out_pipe<W: Wire>()
    ensures { (stream : ℕ → ℕ → Bool) (taker : W → ℕ → ℕ → Option Taker)
        (member : ℕ → Bool) (parts : StructureSets) (hand : Hand) (reply : Heard) (wire after : W) (now : StructureSets) (later : Hand) (kind : WalkStep) (n : ℕ) (x : Endpoint) (known : List ℕ)
        → IsOutBus W.transacts stream taker → AreMembers member parts → AreMembers member now → IsInHand member parts reply hand
        → Effect W.transacts parts hand wire after now later kind
        → (z : StreamEffect NoneBeside W.transacts parts hand wire after now later)
        → IsOnlyEndpoint stream member parts n x → IsOutPipe (taker wire x.addr x.ep) known parts hand n x
        → IsOutPipe (taker after x.addr x.ep) (known ++ bytes_of_effect n z) now later n x }
{}

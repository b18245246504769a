//! The bus of a script is one whose devices take their streams by the toggle (USB 2.0, 8.5 and 8.6): a bulk or interrupt OUT endpoint on the
//! high-speed bus takes data of the toggle that it expects or refuses them, drops any other, and no other transaction gives it bytes.
//!
//! The module has no code of its own: each function is a law over the definitions of `bus_wire` and `law_ring`, and its body is empty.

ghost use Rattle.std.specs.Prelude.{◌≡◌, ℕ, Bool, List};
ghost use Rattle.usb_base.specs.declared.packets.Ask.{Ask};
ghost use Rattle.usb_base.specs.declared.packets.Reply.{Reply};
ghost use Rattle.bus_wire.specs.Bus.{Wired, reply_of, transact_after, is_allowed, begin_after};
ghost use Rattle.law_ring.specs.OutBus.{IsOutBus, KeepsTakers};
ghost use Rattle.law_devices.specs.scripted_takers.Takers.{taker_of};

/// Whichever of its endpoints are asked about, the bus is such a bus.
pub fn a_scripted_bus_takes_its_streams()
    ensures { (stream : ℕ → ℕ → Bool) → IsOutBus (λ (w : Wired) (ask : Ask) (out : List ℕ) (reply : Reply) (v : Wired). (reply ≡ reply_of w.fixed w.bus ask out) ×
        (v ≡ record w { bus = transact_after w.fixed w.bus ask out })) stream taker_of }
{}

/// And where a microframe begins, whatever its hubs then do on the bus below them, none of them goes on.
pub fn a_microframe_keeps_its_takers()
    ensures { (stream : ℕ → ℕ → Bool) → KeepsTakers (λ (w : Wired) (frindex : ℕ) (allowed : Bool) (v : Wired). (allowed ≡ is_allowed w.fixed w.bus) ×
        (v ≡ record w { bus = begin_after w.fixed frindex w.bus })) stream taker_of }
{}

//! The bus of a script (USB 2.0, 8.4 to 8.6, 9.3): its senders, takers and controls keep what a pipe asks of them, and requests over a
//! ring of queue heads.
//!
//! - `control_requests`: The controller over a ring, and the requests of its control endpoints (EHCI 1.0, 4.6 and 4.10; USB 2.0, 8.5.3): each event of the
//!   controller is at most one transaction of one of the requests, or the advance of one queue head to its next request, and how host and device stand to each
//!   other is kept, whatever the bus loses.
//! - `declared_controls`: Of each script that a text spells, what its control endpoints have: each high-speed one of a device that is opened is on the bus of
//!   the script, freshly opened, with the replies of its lines; endpoints have the numbers of their transfer types, so nothing is sent or taken at number 0;
//!   and each request is whole.
//! - `declared_takers`: The takers of the endpoints that a script opens, worked.
//! - `opening_senders`: What the senders of a script have at the opening (USB 2.0, 8.6): each has all the packets that the script has for the endpoint of its
//!   name.
//! - `request_calls`: One transaction of a queue head that works on a stage of a control request (EHCI 1.0, 3.6 and 4.10; USB 2.0, 8.5.3): over any bus whose
//!   control endpoints answer by their stage, and that loses packets as it likes, it is one transaction of the request, for a SETUP, an IN, an OUT and a PING
//!   alike.
//! - `request_stores`: A control request is published behind the others of its endpoint while the walk goes on (EHCI 1.0, 3.5, 4.10 and 4.10.2; USB 2.0,
//!   8.5.3).
//! - `ring_requests`: The requests of all control endpoints of a ring at once (EHCI 1.0, 4.10; USB 2.0, 8.5.3).
//! - `scripted_requests`: The bus of a script is one whose control endpoints answer by their stage (USB 2.0, 8.5.3 and 8.6): each on the high-speed bus answers
//!   and goes on as `law_request`' device does, by who heard what, and no other transaction changes it.
//! - `scripted_takers`: The bus of a script is one whose devices take their streams by the toggle (USB 2.0, 8.5 and 8.6): a bulk or interrupt OUT endpoint on
//!   the high-speed bus takes data of the toggle that it expects or refuses them, drops any other, and no other transaction gives it bytes.
//!
//! The crate has no code of its own: each function is a law, and its body is empty.
#![tactic(auto)]

ghost use Rattle.std.specs.Prelude.{◌≡◌, ℕ, Bool, List};
ghost use Rattle.usb_base.specs.declared.packets.Ask.{Ask};
ghost use Rattle.usb_base.specs.declared.packets.Reply.{Reply};
ghost use Rattle.bus_wire.specs.Bus.{Wired, reply_of, transact_after, is_allowed, begin_after};
ghost use Rattle.law_ring.specs.Bus.{IsBus, KeepsSenders};
ghost use Rattle.law_devices.specs.Senders.{sender_of};

pub mod control_requests;
pub mod declared_controls;
pub mod declared_takers;
pub mod laws;
pub mod opening_senders;
pub mod request_calls;
pub mod request_stores;
pub mod ring_requests;
pub mod scripted_requests;
pub mod scripted_takers;
pub mod worked;

/// Whichever of its endpoints are asked about, the bus is such a bus.
pub fn a_scripted_bus_sends_its_streams()
    ensures { (stream : ℕ → ℕ → Bool) → IsBus (λ (w : Wired) (ask : Ask) (out : List ℕ) (reply : Reply) (v : Wired). (reply ≡ reply_of w.fixed w.bus ask out) ×
        (v ≡ record w { bus = transact_after w.fixed w.bus ask out })) stream sender_of }
{}

/// And where a microframe begins, whatever its hubs then do on the bus below them, none of them goes on.
pub fn a_microframe_keeps_its_senders()
    ensures { (stream : ℕ → ℕ → Bool) → KeepsSenders (λ (w : Wired) (frindex : ℕ) (allowed : Bool) (v : Wired). (allowed ≡ is_allowed w.fixed w.bus) ×
        (v ≡ record w { bus = begin_after w.fixed frindex w.bus })) stream sender_of }
{}

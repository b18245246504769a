//! Who hears a packet, on the high-speed bus and below a translator (USB 2.0, 8.4, 8.5, 8.6, 11.14 and 11.17): what lines of a script
//! say of lost packets, the ports of the hubs, and nothing else.
//!
//! The crate has no code of its own: each function is a law over the definitions of `bus_wire`, and its body is empty.
#![tactic(auto)]

pub mod worked;

ghost use Rattle.law_hearing.specs.HearingLaws.{AsksAreHeard, AsksAreHeardBelow, OneThingIsHeard};

/// Each ask on the high-speed bus is answered by whoever has the endpoint, unless a line says that a packet is lost.
#[tactic(auto, using(crate::proofs::Heard::asks_are_heard))]
pub fn asks_are_heard()
    ensures { AsksAreHeard }
{}

/// Each ask below a hub is answered by the device of the endpoint where it is behind an enabled port, unless a line says that a packet
/// is lost.
pub fn asks_are_heard_below()
    ensures { AsksAreHeardBelow }
{}

/// What lines and ports say leaves no choice: one reply is heard, and one bus is left.
pub fn one_thing_is_heard()
    ensures { OneThingIsHeard }
{}

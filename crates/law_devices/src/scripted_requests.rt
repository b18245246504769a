//! The bus of a script is one whose control endpoints answer by their stage (USB 2.0, 8.5.3 and 8.6): each on the high-speed bus answers and goes on
//! as `law_request`' device does, by who heard what, and no other transaction changes it.
//!
//! The module has no code of its own: each function is a law over the definitions of `bus_wire` and `request_calls`, and its body is empty.

ghost use Rattle.law_devices.specs.request_calls.Bus.{IsControlBus, KeepsDevices};
ghost use Rattle.law_devices.specs.Controls.{control_of};
ghost use Rattle.law_devices.specs.scripted_requests.Controls.{transacts_by, begins_by};

/// The bus is such a bus.
pub fn a_scripted_bus_answers_by_stages()
    ensures { IsControlBus transacts_by control_of }
{}

/// And where a microframe begins, whatever its hubs then do on the bus below them, none of them goes on.
pub fn keeps_devices()
    ensures { KeepsDevices begins_by control_of }
{}

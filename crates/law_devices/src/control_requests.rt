//! The controller over a ring, and the requests of its control endpoints (EHCI 1.0, 4.6 and 4.10; USB 2.0, 8.5.3): each event of the controller is at
//! most one transaction of one of the requests, or the advance of one queue head to its next request, and how host and device stand to each other is
//! kept, whatever the bus loses.
//!
//! The module has no code of its own: its function is a law over the definitions of `controlled_streams` and `ring_requests`, and its body is empty.

ghost use Rattle.std.specs.Prelude.{ℕ, Bool, Option};
ghost use Rattle.hc_core.specs.Controller.{Content, HasRow, microframe_row};
ghost use Rattle.law_structures.specs.lent_structures.Structures.{StructureSets};
ghost use Rattle.claims_report.specs.ControlSides.{Device};
ghost use Rattle.law_devices.specs.request_calls.Bus.{IsControlBus, KeepsDevices};
ghost use Rattle.law_ring.specs.Hand.{Hand};
ghost use Rattle.claims_base.specs.Controller.{Base};
ghost use Rattle.law_ring.specs.Effects.{AreBytesHeard};
ghost use Rattle.law_controller.specs.controlled_streams.Control.{IsOn, IsControlled};
ghost use Rattle.law_devices.specs.ring_requests.Windows.{Queue, Lines, AreSent, AreWindows, AreHigh};
ghost use Rattle.law_devices.specs.control_requests.Events.{ControlWindowsGoOn};
ghost use Rattle.law_devices.specs.control_requests.Rests.{ControlKeepsRest};

use usb_base::Wire;

/// Each event of the controller makes at most one transaction of one request under way, or is the advance of one queue head from a request that is done
/// to the next one; all windows stand as they must afterwards, and the requests behind a halted one are never begun.
/// The queue heads are of high speed.
pub fn an_event_keeps_the_windows<W: Wire>()
    ensures { (device : W → ℕ → ℕ → Option Device) (base : Base) (member windows : ℕ → Bool) (sent : ℕ → Queue) (lines : ℕ → Lines) (parts : StructureSets) (hand : Hand)
        (c : Content) (wire : W) (new : Content) (after : W) → AreSent member windows sent → IsControlBus W.transacts device → KeepsDevices W.begins device
        → IsControlled base member parts hand c → IsOn base → AreWindows device member windows sent lines parts hand wire
        → AreHigh windows parts → AreBytesHeard W.transacts wire after
        → HasRow W.begins W.transacts (microframe_row c.registers c.control) c wire new after
        → ControlWindowsGoOn W.begins W.transacts device base member windows sent lines parts hand wire after new }
{}

/// Each event of the controller leaves a queue of which no request is under way so, with all its structures and the device as they were: nothing is asked
/// of it. No other queue head of the ring has its endpoint.
pub fn an_event_leaves_a_queue_at_rest<W: Wire>()
    ensures { (device : W → ℕ → ℕ → Option Device) → ControlKeepsRest W.begins W.transacts device }
{}
